// The publisher's end of a board.
ghost use Rattle.std.specs.Prelude.{◌≡◌, ◌+◌, ◌-◌, ◌^◌, ◌≤◌, nat_le, ◌&&◌, ◌++◌, ◌∷◌, [], min, drop, MatchResult, OnOk, IfOk, IfErr};
ghost use mathlib.Core.List.{IsPrefix};
ghost use Rattle.ring_records.specs.declared.refusal.Refusal.TheVariants.{OutOfMemory, NoPlace};
ghost use Rattle.decision_board.specs.Boards.{published, pending, refusals, LackedMemory};
ghost use Rattle.decision_board.specs.Readers.{seen, learned};
ghost use Rattle.decision_board.specs.Posts.{IsPosted};
ghost use Rattle.decision_board.specs.Stores.{GoOn, notices_of, state_of};

use crate::history::{Front, Naming, Opened, Whole};
use crate::reader::BoardReader;
use crate::rule::{Posted, Sees};
use crate::store::{Entry, Store};
use crate::told::Told;
use core::mem::replace_with;
use left_right::writer::Writer;
use ring_records::{Notice, Refusal};
use std::alloc::{AllocError, Global};
use std::collections::VecDeque;
use std::marker::Model;
use std::sync::Wait;

/// Whether a board can have places for so many readers: 1 to 32.
pub fn is_reader_count(readers: usize) -> bool
    ensures { result ≡ (nat_le 1 readers && nat_le readers 32) }
{
    1 <= readers && readers <= 32
}

type Publisher<J> = Writer<Store, Entry, [Notice; 0], Posted<J>>;

/// The board of one history of notices. Contracts see the list that readers take, what was appended since, and how many
/// growths were refused. It is not dropped: `end` alone ends it.
pub struct Board<J: Naming> {
    writer: Writer<Store, Entry, [Notice; 0], Posted<J>>,
    whole: Whole,
    start: Front,
    waiting: VecDeque<Entry>,
    refusals: u64,
}

impl<J: Naming> Model for Board<J> {
    ghost use Rattle.std.specs.Prelude.{◌≡◌, List, [], ◌++◌, drop};
    ghost use Rattle.ring_records.specs.declared.notice.Notice.{Notice};
    ghost use Rattle.decision_board.specs.Boards.{BoardView};
    ghost use Rattle.decision_board.specs.Posts.{IsPosted};
    ghost use Rattle.decision_board.specs.Stores.{GoOn, notices_of};

    ghost Value = { BoardView };

    ghost view = { λ b. (b.writer.desk.shown.value.front.mark.notices, notices_of (drop b.writer.behind b.writer.log.items ++ b.waiting.items), b.refusals) };

    ghost invariant = { λ b. (b.whole.right.history ≡ J.history) × (b.start.mark.history ≡ J.history) × (b.start.mark.notices ≡ [])
        × (b.whole.right.notices ≡ b.writer.desk.shown.value.front.mark.notices ++ notices_of (drop b.writer.behind b.writer.log.items ++ b.waiting.items))
        × IsPosted J.history b.writer.desk.shown.value × GoOn J.history b.writer.desk.shown.value.front.mark.notices (drop b.writer.behind b.writer.log.items ++ b.waiting.items) };
}

impl<J: Naming> Board<J> {
    /// A board that has published these notices, with places for so many readers, 1 to 32.
    pub fn new(
        alloc: Global,
        opened: Opened,
        notices: &[Notice],
        readers: usize,
    ) -> Result<Board<J>, Refusal>
        requires history { opened ≡ J.history }
        requires readers { (1 ≤ readers) × (readers ≤ 32) }
        ensures published { IfOk result (λ b. published b ≡ notices.now) }
        ensures pending { IfOk result (λ b. pending b ≡ []) }
        ensures refusals { IfOk result (λ b. refusals b ≡ 0) }
        ensures refused { IfErr result (λ e. e ≡ OutOfMemory) }
    {
        let (mut whole, start) = opened.into_parts();
        let mut first = Store::new(alloc, start.again());
        let mut second = Store::new(alloc, start.again());
        if take_all::<J>(&mut whole, &mut first, &mut second, notices).is_err() {
            return Err(Refusal::OutOfMemory);
        }
        match Writer::new(alloc, first, second, readers) {
            Ok(writer) => Ok(Board {
                writer,
                whole,
                start,
                waiting: VecDeque::new(alloc),
                refusals: 0,
            }),
            Err(_) => Err(Refusal::OutOfMemory),
        }
    }

    /// Appends a notice, for the next `publish`. Refused as 8, it changed nothing but the count of refused growths.
    pub fn append(&mut self, notice: Notice) -> Result<(), Refusal>
        ensures published { published self.new ≡ published self.old }
        ensures pending { OnOk result (pending self.new ≡ pending self.old ++ notice ∷ []) }
        ensures refusals { OnOk result (refusals self.new ≡ refusals self.old) }
        ensures refused { IfErr result (λ e. (e ≡ OutOfMemory) × (pending self.new ≡ pending self.old) × LackedMemory self.old self.new) }
    {
        if self.waiting.reserve(1).is_err() {
            return Err(refuse(&mut self.refusals));
        }
        match self.whole.add(&notice) {
            Some(front) => {
                self.waiting.push_back_reserved(Entry { notice, front });
                Ok(())
            }
            None => Err(refuse(&mut self.refusals)),
        }
    }

    /// Publishes all that was appended, at once and in order. It waits for readers that still read the list before the
    /// one that is published. Refused as 8, it changed nothing but the count of refused growths.
    pub fn publish<R: Wait>(&mut self, rt: &R) -> Result<(), Refusal>
        ensures published { OnOk result (published self.new ≡ published self.old ++ pending self.old) }
        ensures pending { OnOk result (pending self.new ≡ []) }
        ensures refusals { OnOk result (refusals self.new ≡ refusals self.old) }
        ensures refused { IfErr result (λ e. (e ≡ OutOfMemory) × (published self.new ≡ published self.old) × (pending self.new ≡ pending self.old) × LackedMemory self.old self.new) }
    {
        if hand_over::<J>(&mut self.writer, &mut self.waiting).is_err() {
            return Err(refuse(&mut self.refusals));
        }
        match replace_with(&mut self.writer, rt, show::<J, R>) {
            Ok(()) => Ok(()),
            Err(_) => Err(refuse(&mut self.refusals)),
        }
    }

    /// How many growths were refused. At 2^64 - 1 it stays.
    pub fn refusals(&self) -> u64
        ensures { result ≡ refusals self.now }
    {
        self.refusals
    }

    /// What is published, for a reader to learn.
    pub fn tell(&self) -> Told<J>
        ensures { result ≡ published self.now }
    {
        Told::new(self.writer.published().front.again())
    }

    /// Changes nothing, and nothing runs: what is published and what was appended since begin with what was told.
    pub fn covers(&mut self, told: &Told<J>)
        ensures begins { IsPrefix told.now (published self.old ++ pending self.old) }
        ensures same { self.new ≡ self.old }
    {
        self.whole.covers(told.front());
    }

    /// A reader, which has seen nothing and learned what is published; refused as 20 where there is no place for it.
    pub fn reader(&self) -> Result<BoardReader<J>, Refusal>
        ensures seen { IfOk result (λ r. seen r ≡ []) }
        ensures learned { IfOk result (λ r. learned r ≡ published self.now) }
        ensures refused { IfErr result (λ e. e ≡ NoPlace) }
    {
        match self.writer.factory().reader() {
            Ok(place) => Ok(BoardReader::new(
                place,
                self.start.again(),
                self.writer.published().front.again(),
            )),
            Err(_) => Err(Refusal::NoPlace),
        }
    }

    /// Ends the board. It waits for the readers that are reading; from then on readers are refused.
    pub fn end<R: Wait>(self, rt: &R) {
        let Board {
            writer,
            whole: _whole,
            start: _start,
            waiting: _waiting,
            refusals: _,
        } = self;
        drop(writer.take(rt));
    }
}

// Counts a growth that was refused, and tells of it.
fn refuse(refusals: &mut u64) -> Refusal
    ensures why { result ≡ OutOfMemory }
    ensures later { refusals.old ≤ refusals.new }
    ensures rises { min (refusals.old + 1) (2 ^ 64 - 1) ≤ refusals.new }
{
    *refusals = refusals.saturating_add(1);
    Refusal::OutOfMemory
}

// Takes all notices into both copies.
fn take_all<J: Naming>(
    whole: &mut Whole,
    first: &mut Store,
    second: &mut Store,
    notices: &[Notice],
) -> Result<(), AllocError>
    requires whole { (whole.old.right.history ≡ J.history) × (whole.old.right.notices ≡ []) }
    requires posted { IsPosted J.history first.old × (first.old.front.mark.notices ≡ []) }
    requires alike { state_of second.old ≡ state_of first.old }
    ensures whole { OnOk result ((whole.new.right.history ≡ J.history) × (whole.new.right.notices ≡ notices.now)) }
    ensures posted { OnOk result (IsPosted J.history first.new × (first.new.front.mark.notices ≡ notices.now)) }
    ensures alike { OnOk result (state_of second.new ≡ state_of first.new) }
{
    for notice in notices {
        let Some(front) = whole.add(notice) else {
            return Err(AllocError);
        };
        let entry = Entry {
            notice: *notice,
            front,
        };
        first.take_in(&entry)?;
        second.take_in(&entry)?;
    }
    Ok(())
}

// Moves what waits to the writer. An entry that finds no memory waits on.
fn hand_over<J: Naming>(
    writer: &mut Publisher<J>,
    waiting: &mut VecDeque<Entry>,
) -> Result<(), AllocError>
    ensures shown { writer.new.desk ≡ writer.old.desk }
    ensures order { drop writer.new.behind writer.new.log.items ++ waiting.new.items ≡ drop writer.old.behind writer.old.log.items ++ waiting.old.items }
    ensures empty { OnOk result (waiting.new.items ≡ []) }
{
    while let Some(entry) = waiting.pop_front() {
        if let Err(entry) = writer.append(entry) {
            waiting.push_front_reserved(entry);
            return Err(AllocError);
        }
    }
    Ok(())
}

// Shows readers all that the writer has.
fn show<J: Naming, R: Wait>(writer: Publisher<J>, rt: &R) -> (Publisher<J>, Result<(), AllocError>)
    requires posted { IsPosted J.history writer.desk.shown.value }
    requires goes_on { GoOn J.history writer.desk.shown.value.front.mark.notices (drop writer.behind writer.log.items) }
    ensures posted { IsPosted J.history result.0.desk.shown.value }
    ensures values { MatchResult result.1
        (λ _. (result.0.desk.shown.value.front.mark.notices ≡ writer.desk.shown.value.front.mark.notices ++ notices_of (drop writer.behind writer.log.items))
        × (drop result.0.behind result.0.log.items ≡ []))
        (λ _. (result.0.desk.shown.value ≡ writer.desk.shown.value) × (drop result.0.behind result.0.log.items ≡ drop writer.behind writer.log.items)) }
{
    writer.publish_as::<Sees<J>, R>(rt)
}
