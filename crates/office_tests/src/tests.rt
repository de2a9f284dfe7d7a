mod beside;
mod inside;
mod waiting;
