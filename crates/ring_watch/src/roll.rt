//! For what the sessions of a node stood, and what their clients tell of it.
use door_rules::{Presence, Resigned, Stood, presence_of};
use ring_records::{DOORS, GroupName, Key, Term};
use std::alloc::{AllocError, Global};
use std::sync::{Mutex, Wait};

/// For what the session at each door of a node stood, and for what terms who stood resigned, each behind a lock of its own. What
/// goes over both holds the lock of the second from its beginning on: so where one stands and one resigns for a key at once, the
/// later one counts.
#[derive(Drop)]
pub(crate) struct Roll {
    alloc: Global,
    doors: Vec<Mutex<Stood>>,
    resigned: Mutex<Resigned>,
}

impl Roll {
    /// Of a node with a session nowhere.
    pub(crate) fn new(alloc: Global) -> Result<Roll, AllocError> {
        let mut doors = Vec::with_capacity(alloc, DOORS as usize)?;
        for _ in 0..DOORS {
            doors.push(Mutex::new(Stood::new(alloc)))?;
        }
        Ok(Roll {
            alloc,
            doors,
            resigned: Mutex::new(Resigned::new(alloc)),
        })
    }

    /// The session at this door, counted from 0, stood for the key. Where memory is wanting it is not known.
    pub(crate) fn enrol<R: Wait>(&self, rt: &R, door: u32, key: Key) {
        let mut resigned = self.resigned.lock(rt);
        if let Some(stood) = self.doors.get(door as usize) {
            let _ = stood.lock(rt).enter(key);
        }
        resigned.forget(&key);
    }

    /// The session at this door has ended.
    pub(crate) fn withdraw<R: Wait>(&self, rt: &R, door: u32) {
        if let Some(stood) = self.doors.get(door as usize) {
            *stood.lock(rt) = Stood::new(self.alloc);
        }
    }

    /// The node gave up the terms of the group below this floor.
    pub(crate) fn retire<R: Wait>(&self, rt: &R, group: &GroupName, floor: Term) {
        let mut resigned = self.resigned.lock(rt);
        for stood in &self.doors {
            stood.lock(rt).retire(group, floor);
        }
        resigned.retire(group, floor);
    }

    /// The client of the session at this door tells a text, of the greatest term of the group that it stood for. Whether there is
    /// one. Where memory is wanting nothing has changed.
    pub(crate) fn tell<R: Wait>(
        &self,
        rt: &R,
        door: u32,
        group: &GroupName,
        text: &str,
    ) -> Result<bool, AllocError> {
        let told = String::from_str(self.alloc, text)?;
        match self.doors.get(door as usize) {
            Some(stood) => Ok(stood.lock(rt).tell(group, told)),
            None => Ok(false),
        }
    }

    /// Whether the session at this door stood for the key.
    fn stands_at<R: Wait>(&self, rt: &R, door: u32, key: &Key) -> bool {
        match self.doors.get(door as usize) {
            Some(stood) => stood.lock(rt).has(key),
            None => false,
        }
    }

    /// The client of the session at this door resigns for the key: nobody is present for it from then on. Whether it stood for
    /// it. Where memory is wanting nothing has changed.
    pub(crate) fn resign<R: Wait>(&self, rt: &R, door: u32, key: Key) -> Result<bool, AllocError> {
        let mut resigned = self.resigned.lock(rt);
        if !self.stands_at(rt, door, &key) {
            return Ok(false);
        }
        resigned.mark(key)?;
        for stood in &self.doors {
            stood.lock(rt).leave(&key);
        }
        Ok(true)
    }

    /// What each session that stood for the key tells of it, by their doors.
    fn texts_of<R: Wait>(&self, rt: &R, key: &Key) -> Result<Vec<String>, AllocError> {
        let mut texts = Vec::new(self.alloc);
        for stood in &self.doors {
            let stood = stood.lock(rt);
            if let Some(text) = stood.text_of(key) {
                texts.push(String::from_str(self.alloc, text)?)?;
            }
        }
        Ok(texts)
    }

    /// What is known of who stood for the key.
    pub(crate) fn presence<R: Wait>(&self, rt: &R, key: &Key) -> Result<Presence, AllocError> {
        let resigned = self.resigned.lock(rt);
        let texts = self.texts_of(rt, key)?;
        Ok(presence_of(self.alloc, texts, resigned.has(key)))
    }
}
