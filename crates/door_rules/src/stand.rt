// What a session stood for, and what its client tells of it.
ghost use Rattle.std.specs.Prelude.{◌≡◌, string_bytes};
ghost use Rattle.ring_records.specs.Known.{drops};
ghost use Rattle.door_rules.specs.Stands.{is_for, is_in};

use crate::keys;
use ring_records::{GroupName, Key, Term};
use std::marker::Model;

// A key that a session stood for, with the text that its client tells of it, if not an empty one.
#[derive(Drop)]
pub(crate) struct Stand {
    key: Key,
    text: String,
}

impl Model for Stand {
    ghost use Rattle.std.specs.Prelude.{string_bytes};
    ghost use Rattle.door_rules.specs.Told.{Told};

    ghost Value = { Told };

    ghost view = { λ stand. record { key = stand.key; text = string_bytes stand.text } };
}

impl Stand {
    pub(crate) fn new(key: Key, text: String) -> Stand
        ensures { result ≡ record { key = key; text = string_bytes text } }
    {
        Stand { key, text }
    }

    pub(crate) fn is_for(&self, key: &Key) -> bool
        ensures { result ≡ is_for key.now self.now }
    {
        keys::is_key(&self.key, key)
    }

    pub(crate) fn is_in(&self, group: &GroupName) -> bool
        ensures { result ≡ is_in group.now self.now.key }
    {
        keys::is_in(&self.key, group)
    }

    // Whether it is of the group and below the floor.
    pub(crate) fn is_below(&self, group: &GroupName, floor: Term) -> bool
        ensures { result ≡ drops group.now floor self.now.key }
    {
        keys::is_below(&self.key, group, floor)
    }

    pub(crate) fn term(&self) -> Term
        ensures { result ≡ self.now.key.term }
    {
        self.key.term
    }

    pub(crate) fn text(&self) -> &str
        ensures { result.now ≡ self.now.text }
    {
        &self.text
    }
}
