mod both;
mod judging;
