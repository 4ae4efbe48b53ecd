// What one session stood for.
ghost use Rattle.std.specs.Prelude.{◌≡◌, ◌<◌, ◌≤◌, [], not, length, filter, position, unwrap_or, is_some, string_bytes, IfSome, OnOk, OnErr};
ghost use Rattle.std.specs.List.{list_any};
ghost use Rattle.std.specs.Option.{option_copied};
ghost use Rattle.ring_records.specs.Known.{drops};
ghost use Rattle.door_rules.specs.Stands.{entered, is_for, is_in, latest, text_of, with_latest, with_text};

use crate::limits::TERMS;
use crate::stand::Stand;
use ring_records::{GroupName, Key, Term};
use std::alloc::{AllocError, Global};
use std::marker::Model;

/// What a session stood for, in the order in which it did, 1,024 terms at most, with the texts that its client tells of them.
#[derive(Drop)]
pub struct Stood {
    alloc: Global,
    stands: Vec<Stand>,
}

impl Model for Stood {
    ghost use Rattle.std.specs.Prelude.{◌≤◌, List, length, vec_len, vec_capacity};
    ghost use Rattle.door_rules.specs.Told.{Told};
    ghost use Rattle.door_rules.specs.declared.limits.TheConstants.{TERMS};

    ghost Value = { List Told };

    ghost view = { λ stood. stood.stands.items };

    ghost invariant = { λ stood. (length stood.stands.items ≤ TERMS) × (vec_len stood.stands ≤ vec_capacity stood.stands) };
}

impl Stood {
    /// Of a session that stood for nothing yet.
    pub fn new(alloc: Global) -> Stood
        ensures { result ≡ [] }
    {
        Stood {
            alloc,
            stands: Vec::new(alloc),
        }
    }

    /// Whether it stood for the key.
    pub fn has(&self, key: &Key) -> bool
        ensures { result ≡ list_any (is_for key.now) self.now }
    {
        self.stands.iter().any(|stand| stand.is_for(key))
    }

    /// The text that is told of the key, or an empty one; `None` where the session did not stand for it.
    pub fn text_of(&self, key: &Key) -> Option<&str>
        ensures { option_copied result ≡ text_of key.now self.now }
    {
        match self.stands.iter().find(|stand| stand.is_for(key)) {
            Some(stand) => Some(stand.text()),
            None => None,
        }
    }

    // Where the key stands.
    fn place_of(&self, key: &Key) -> Option<usize>
        ensures value { result ≡ position (is_for key.now) self.now }
        ensures within { IfSome result (λ at. at < length self.now) }
    {
        self.stands.iter().position(|stand| stand.is_for(key))
    }

    // Where the first one of the group stands.
    fn place_in(&self, group: &GroupName) -> Option<usize>
        ensures value { result ≡ position (λ told. is_in group.now told.key) self.now }
        ensures within { IfSome result (λ at. at < length self.now) }
    {
        self.stands.iter().position(|stand| stand.is_in(group))
    }

    // Which one goes for one more of the group: the first of that group, or the first of all.
    fn first_of(&self, group: &GroupName) -> usize
        ensures value { result ≡ unwrap_or (position (λ told. is_in group.now told.key) self.now) 0 }
        ensures within { 0 < length self.now → result < length self.now }
    {
        match self.place_in(group) {
            Some(at) => at,
            None => 0,
        }
    }

    /// It stood for the key, of which no text is told yet. A key that stands already stays as it is; else it is the last one, as
    /// long as there are fewer than 1,024; else in place of the first one of its group, or of all. Where memory is wanting
    /// nothing has changed.
    pub fn enter(&mut self, key: Key) -> Result<(), AllocError>
        ensures ok { OnOk result (self.new ≡ entered key self.old) }
        ensures err { OnErr result (self.new ≡ self.old) }
        ensures bound { length self.new ≤ TERMS }
    {
        if self.has(&key) {
            return Ok(());
        }
        if self.stands.len() < TERMS {
            self.stands.reserve(1)?;
        } else {
            let at = self.first_of(&key.group);
            drop(self.stands.remove(at));
        }
        let stand = Stand::new(key, String::new(self.alloc));
        self.stands.push_reserved(stand);
        Ok(())
    }

    // The greatest term of the group.
    fn latest(&self, group: &GroupName) -> Option<Term>
        ensures { result ≡ latest group.now self.now }
    {
        self.stands
            .iter()
            .filter(|stand| stand.is_in(group))
            .map(|stand| stand.term())
            .max()
    }

    // The client tells this text of the key.
    fn tell_of(&mut self, key: Key, text: String)
        ensures { self.new ≡ with_text key (string_bytes text) self.old }
    {
        if let Some(at) = self.place_of(&key) {
            self.stands[at] = Stand::new(key, text);
        }
    }

    /// The client tells this text, of the greatest term of the group that the session stood for. Whether there is one.
    pub fn tell(&mut self, group: &GroupName, text: String) -> bool
        ensures told { result ≡ is_some (latest group.now self.old) }
        ensures text { self.new ≡ with_latest group.now (string_bytes text) self.old }
    {
        let Some(term) = self.latest(group) else {
            return false;
        };
        let key = Key {
            group: *group,
            term,
        };
        self.tell_of(key, text);
        true
    }

    /// The key is no more among what it stood for.
    pub fn leave(&mut self, key: &Key)
        ensures { self.new ≡ filter (λ told. not (is_for key.now told)) self.old }
    {
        self.stands.retain(|stand| !stand.is_for(key));
    }

    /// The node gave up the terms of the group below this floor.
    pub fn retire(&mut self, group: &GroupName, floor: Term)
        ensures { self.new ≡ filter (λ told. not (drops group.now floor told.key)) self.old }
    {
        self.stands.retain(|stand| !stand.is_below(group, floor));
    }
}
