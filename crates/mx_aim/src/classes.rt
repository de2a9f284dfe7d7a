//! Classes of access isolation.

ghost use Rattle.std.specs.Prelude.{◌≡◌, if◌then◌else◌, nat_le, nat_lt, ◌&&◌, ◌^◌, Some, None};
ghost use Rattle.mx_aim.specs.Classes.{aim_of, class_of_text, dominates, equals, lowest};

use mx_sdw::{Aim, read_octal_number};
use std::marker::Model;

/// A class of access isolation (Multics Administrators' Manual): a level from 0 to 7 and a set of 18 categories, as bits.
/// It is the authorization of a process, or the class of a segment.
#[derive(Clone, Copy)]
pub struct Class {
    level: u8,
    categories: u32,
}

impl Model for Class {
    ghost use Rattle.mx_aim.specs.Classes.{PlainClass, IsClass};

    ghost Value = { PlainClass };

    ghost view = { λ c. record { level = c.level; categories = c.categories } };

    ghost invariant = { λ c. IsClass (record { level = c.level; categories = c.categories }) };

    ghost inverse = { λ c. record { level = c.level; categories = c.categories } };
}

impl Class {
    /// The class of a level and categories, `None` exactly where the level is above 7 or the categories are from 2^18 on.
    pub fn new(level: u8, categories: u32) -> Option<Class>
        ensures { result ≡ (if nat_le level 7 && nat_lt categories (2 ^ 18)
            then Some (record { level = level; categories = categories }) else None) }
    {
        if level <= 7 && categories < 1 << 18 {
            Some(Class { level, categories })
        } else {
            None
        }
    }

    /// Level 0 and no category: the class of everything in a session without classes.
    pub fn lowest() -> Class
        ensures { result ≡ lowest }
    {
        Class {
            level: 0,
            categories: 0,
        }
    }

    /// Reads `L:C`, a level of one digit and categories in octal up to 777777, `None` exactly for any other text. Leading
    /// zeros have no text but `0` itself.
    pub fn read(text: &[u8]) -> Option<Class>
        ensures { result ≡ class_of_text text.now }
    {
        match text {
            [level, b':', categories @ ..] if (b'0'..=b'7').contains(level) => {
                let categories = read_octal_number(categories, 6)?;
                Some(Class {
                    level: *level - b'0',
                    categories: categories as u32,
                })
            }
            _ => None,
        }
    }

    /// Its level, at most 7.
    pub fn level(&self) -> u8
        ensures { result ≡ self.now.level }
    {
        self.level
    }

    /// Its categories, as the bits of a number below 2^18.
    pub fn categories(&self) -> u32
        ensures { result ≡ self.now.categories }
    {
        self.categories
    }

    /// Whether its level is at least as high, and its categories are a superset.
    pub fn dominates(&self, other: &Class) -> bool
        ensures { result ≡ dominates self.now other.now }
    {
        other.level <= self.level && other.categories & self.categories == other.categories
    }

    /// Whether level and categories are the same.
    pub fn equals(&self, other: &Class) -> bool
        ensures { result ≡ equals self.now other.now }
    {
        self.level == other.level && self.categories == other.categories
    }

    /// How it stands, as the authorization of a process, to the class of a segment.
    pub fn aim(&self, class: &Class) -> Aim
        ensures { result ≡ aim_of self.now class.now }
    {
        if self.equals(class) {
            Aim::Equal
        } else if self.dominates(class) {
            Aim::Dominates
        } else {
            Aim::Neither
        }
    }
}
