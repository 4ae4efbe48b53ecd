// For what terms who stood resigned.
ghost use Rattle.std.specs.Prelude.{◌≡◌, ◌<◌, ◌≤◌, [], not, length, filter, position, unwrap_or, IfSome, OnOk, OnErr};
ghost use Rattle.std.specs.List.{list_any};
ghost use Rattle.ring_records.specs.Known.{drops};
ghost use Rattle.ring_records.specs.Order.{is_key};
ghost use Rattle.door_rules.specs.Stands.{is_in, marked};

use crate::keys;
use crate::limits::TERMS;
use ring_records::{GroupName, Key, Term};
use std::alloc::{AllocError, Global};
use std::marker::Model;

/// The keys for which who stood resigned, in the order in which they did, 1,024 at most.
#[derive(Drop)]
pub struct Resigned {
    keys: Vec<Key>,
}

impl Model for Resigned {
    ghost use Rattle.std.specs.Prelude.{◌≤◌, List, length, vec_len, vec_capacity};
    ghost use Rattle.ring_records.specs.declared.key.Key.{Key};
    ghost use Rattle.door_rules.specs.declared.limits.TheConstants.{TERMS};

    ghost Value = { List Key };

    ghost view = { λ resigned. resigned.keys.items };

    ghost invariant = { λ resigned. (length resigned.keys.items ≤ TERMS) × (vec_len resigned.keys ≤ vec_capacity resigned.keys) };
}

impl Resigned {
    /// Where nobody resigned yet.
    pub fn new(alloc: Global) -> Resigned
        ensures { result ≡ [] }
    {
        Resigned {
            keys: Vec::new(alloc),
        }
    }

    /// Whether who stood for the key resigned.
    pub fn has(&self, key: &Key) -> bool
        ensures { result ≡ list_any (λ other. is_key other key.now) self.now }
    {
        self.keys.iter().any(|other| keys::is_key(other, key))
    }

    // Where the first one of the group stands.
    fn place_in(&self, group: &GroupName) -> Option<usize>
        ensures value { result ≡ position (is_in group.now) self.now }
        ensures within { IfSome result (λ at. at < length self.now) }
    {
        self.keys.iter().position(|key| keys::is_in(key, group))
    }

    // Which one goes for one more of the group: the first of that group, or the first of all.
    fn first_of(&self, group: &GroupName) -> usize
        ensures value { result ≡ unwrap_or (position (is_in group.now) self.now) 0 }
        ensures within { 0 < length self.now → result < length self.now }
    {
        match self.place_in(group) {
            Some(at) => at,
            None => 0,
        }
    }

    /// Who stood for the key resigned. A key that is marked already stays as it is; else it is the last one, as long as there are
    /// fewer than 1,024; else in place of the first one of its group, or of all. Where memory is wanting nothing has changed.
    pub fn mark(&mut self, key: Key) -> Result<(), AllocError>
        ensures ok { OnOk result (self.new ≡ marked key self.old) }
        ensures err { OnErr result (self.new ≡ self.old) }
        ensures bound { length self.new ≤ TERMS }
    {
        if self.has(&key) {
            return Ok(());
        }
        if self.keys.len() < TERMS {
            self.keys.reserve(1)?;
        } else {
            let at = self.first_of(&key.group);
            self.keys.remove(at);
        }
        self.keys.push_reserved(key);
        Ok(())
    }

    /// Somebody stood for the key again.
    pub fn forget(&mut self, key: &Key)
        ensures { self.new ≡ filter (λ other. not (is_key other key.now)) self.old }
    {
        self.keys.retain(|other| !keys::is_key(other, key));
    }

    /// The node gave up the terms of the group below this floor.
    pub fn retire(&mut self, group: &GroupName, floor: Term)
        ensures { self.new ≡ filter (λ key. not (drops group.now floor key)) self.old }
    {
        self.keys.retain(|key| !keys::is_below(key, group, floor));
    }
}
