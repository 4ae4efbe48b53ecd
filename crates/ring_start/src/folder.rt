//! The folder of the nodes' files.
ghost use Rattle.std.specs.Prelude.{◌≡◌, ◌≤◌, [], ◌∷◌, ◌++◌, IfOk, OnOk};
ghost use Rattle.ring_start.specs.Fits.{found_as, kept_by};
ghost use Rattle.ring_start.specs.Written.{HoldsAll, IsReady};

use crate::found::{Found, NewNode};
use crate::identity::{draw, read_identity, write_identity};
use crate::node_file::{create, recover};
use crate::open_node::OpenNode;
use crate::ready::Ready;
use crate::renewal::renew;
use crate::unopened::{Place, Unopened, ask};
use disk_model::{FileDevice, SystemCall, lock};
use folder_plan::{FolderStep, Identity, making, marking, taking_back};
use ring_records::{NodeNo, Refusal};
use std::alloc::{AllocError, Global};
use std::fs;
use std::fs::File;
use std::io::ErrorKind;
use std::rt::Files;

/// The step is among those that were begun.
fn note(begun: &mut Vec<FolderStep>, step: &FolderStep) -> Result<(), AllocError>
    ensures { OnOk result (begun.new.items ≡ begun.old.items ++ step.now ∷ []) }
{
    Ok(begun.push(*step)?)
}

/// A folder whose exclusive lock is held: nobody else who asks for it makes or opens nodes there.
#[derive(Drop)]
pub struct Folder<'a> {
    path: &'a str,
    file: File,
    is_looked_at: bool,
}

impl<'a> Folder<'a> {
    /// The folder at this path. Refused where it is not there, or is in use.
    pub fn open<R: Files<File = File>>(rt: &R, path: &'a str) -> Result<Folder<'a>, Unopened> {
        Folder::of(rt, path, false)
    }

    /// The same, whose files are read alone.
    pub(crate) fn look<R: Files<File = File>>(
        rt: &R,
        path: &'a str,
    ) -> Result<Folder<'a>, Unopened> {
        Folder::of(rt, path, true)
    }

    fn of<R: Files<File = File>>(
        rt: &R,
        path: &'a str,
        is_looked_at: bool,
    ) -> Result<Folder<'a>, Unopened> {
        let file = ask(Place::Folder, SystemCall::Open, File::open(rt, path))?;
        match lock(&file) {
            Ok(()) => Ok(Folder {
                path,
                file,
                is_looked_at,
            }),
            Err(fault) => Err(Unopened::at(Place::Folder, fault)),
        }
    }

    /// Its path.
    pub(crate) fn path(&self) -> &str {
        self.path
    }

    /// The identity that `ring.id` tells, where it is there and tells one.
    pub(crate) fn identity<R: Files<File = File>>(
        &self,
        rt: &R,
        alloc: Global,
    ) -> Result<Option<Identity>, Unopened> {
        read_identity(rt, alloc, self.signature(alloc)?.as_str())
    }

    /// Has `ring.id` tell an identity, all of whose bytes are on the disk: the one that it tells, or a new one. Before a new
    /// one it is noted that the step was begun.
    fn sign<R: Files<File = File>>(
        &self,
        rt: &R,
        alloc: Global,
        begun: &mut Vec<FolderStep>,
    ) -> Result<(), Unopened> {
        let path = self.signature(alloc)?;
        if self.identity(rt, alloc)?.is_some() {
            let file = ask(
                Place::Identity,
                SystemCall::Open,
                File::open(rt, path.as_str()),
            )?;
            return ask(Place::Identity, SystemCall::Sync, file.sync_all());
        }
        note(begun, &FolderStep::Sign)?;
        write_identity(rt, path.as_str(), &draw(rt)?)
    }

    /// Whether `ring.made` is there: all nodes of a first start were made.
    pub(crate) fn is_made<R: Files<File = File>>(
        &self,
        rt: &R,
        alloc: Global,
    ) -> Result<bool, Unopened> {
        let path = self.mark(alloc)?;
        ask(Place::Mark, SystemCall::Stat, fs::exists(rt, path.as_str()))
    }

    /// Makes `ring.made`, which is there for good then, once each node has a file, behind `ring.id`. `begun` gets the steps
    /// that were begun.
    pub fn mark_made<R: Files<File = File>>(
        &self,
        rt: &R,
        alloc: Global,
        begun: &mut Vec<FolderStep>,
    ) -> Result<(), Unopened> {
        let plan = marking();
        for step in &plan {
            if *step == FolderStep::Sign {
                self.sign(rt, alloc, begun)?;
            } else {
                self.carry_out(rt, alloc, step, begun)?;
            }
        }
        Ok(())
    }

    /// Whether the file `node-I.crj` is there.
    pub(crate) fn has_node<R: Files<File = File>>(
        &self,
        rt: &R,
        alloc: Global,
        node: NodeNo,
    ) -> Result<bool, Unopened> {
        let path = self.journal(alloc, node)?;
        ask(
            Place::Journal,
            SystemCall::Stat,
            fs::exists(rt, path.as_str()),
        )
    }

    /// The node of the file `node-I.crj`, which is recovered where it is there. Where it is not, nothing is made.
    pub(crate) fn find<R: Files<File = File>>(
        &self,
        rt: &R,
        alloc: Global,
        node: NodeNo,
        nodes: u8,
        capacity: u32,
    ) -> Result<Found<FileDevice>, Unopened>
        requires { (node ≤ nodes) × (nodes ≤ 16) }
        ensures { IfOk result (λ found. (found_as found).view.member.node ≡ node) }
    {
        if !self.has_node(rt, alloc, node)? {
            return match NewNode::new(alloc, node, nodes, capacity) {
                Ok(new) => Ok(Found::New(new)),
                Err(refusal) => Err(Unopened::new(refusal)),
            };
        }
        let path = self.journal(alloc, node)?;
        let opened = if self.is_looked_at {
            FileDevice::look(alloc, rt, path.as_str())
        } else {
            FileDevice::open(alloc, rt, path.as_str())
        };
        match recover(alloc, opened, node, nodes) {
            Ok(opened) => Ok(Found::There(opened)),
            Err(why) => Err(why),
        }
    }

    /// The node as it may be served: one that has no file is made, another one makes a checkpoint. `begun` gets the steps in
    /// the folder that were begun.
    pub(crate) fn ready<R: Files<File = File>>(
        &self,
        rt: &R,
        alloc: Global,
        found: Found<FileDevice>,
        begun: &mut Vec<FolderStep>,
    ) -> Result<Ready<FileDevice>, Unopened>
        ensures { IfOk result (λ ready. IsReady found ready) }
    {
        match found {
            Found::New(new) => {
                let made = self.make(rt, alloc, &new, begun);
                drop(new);
                Ok(Ready {
                    opened: made?,
                    is_written: true,
                })
            }
            Found::There(opened) => renew(opened),
        }
    }

    /// A new node, in a file that has its full length, and gets its name once it is formatted and synced: a stop at any moment
    /// leaves a file that is recovered, or none of the name, and what it left is made anew.
    fn make<R: Files<File = File>>(
        &self,
        rt: &R,
        alloc: Global,
        new: &NewNode,
        begun: &mut Vec<FolderStep>,
    ) -> Result<OpenNode<FileDevice>, Unopened>
        ensures desk { IfOk result (λ opened. kept_by opened ≡ new.now.desk) }
        ensures holds { IfOk result (λ opened. HoldsAll 1 new.now.desk opened) }
    {
        let [clear, format, name] = making(new.number);
        self.carry_out(rt, alloc, &clear, begun)?;
        note(begun, &format)?;
        let opened = self.format_new(rt, alloc, new)?;
        match self.carry_out(rt, alloc, &name, begun) {
            Ok(()) => Ok(opened),
            Err(why) => {
                drop(opened);
                Err(why)
            }
        }
    }

    /// A new node in a new file of its first name.
    fn format_new<R: Files<File = File>>(
        &self,
        rt: &R,
        alloc: Global,
        new: &NewNode,
    ) -> Result<OpenNode<FileDevice>, Unopened>
        ensures desk { IfOk result (λ opened. kept_by opened ≡ new.now.desk) }
        ensures holds { IfOk result (λ opened. HoldsAll 1 new.now.desk opened) }
    {
        let path = self.new_journal(alloc, new.number)?;
        create(
            rt,
            alloc,
            path.as_str(),
            new.number,
            new.nodes,
            new.capacity,
        )
    }

    /// Takes back what a refused start left, of which these steps were begun. Behind a step that is refused nothing more is
    /// done: what is left is what the next start goes on from.
    pub(crate) fn take_back<R: Files<File = File>>(
        &self,
        rt: &R,
        alloc: Global,
        begun: &[FolderStep],
    ) {
        let Ok(plan) = taking_back(alloc, begun) else {
            return;
        };
        for step in &plan {
            if self.change(rt, alloc, step).is_err() {
                break;
            }
        }
    }

    /// Carries out a step that changes names. Before that it is noted that it was begun.
    fn carry_out<R: Files<File = File>>(
        &self,
        rt: &R,
        alloc: Global,
        step: &FolderStep,
        begun: &mut Vec<FolderStep>,
    ) -> Result<(), Unopened> {
        note(begun, step)?;
        self.change(rt, alloc, step)
    }

    /// Changes names as this step says. One that writes bytes is refused, since `format_new` and `sign` have them.
    fn change<R: Files<File = File>>(
        &self,
        rt: &R,
        alloc: Global,
        step: &FolderStep,
    ) -> Result<(), Unopened> {
        match *step {
            FolderStep::Clear(node) => {
                remove(rt, self.new_journal(alloc, node)?.as_str(), Place::New)
            }
            FolderStep::Format(_) | FolderStep::Sign => {
                Err(Unopened::new(Refusal::NotFormatted))
            }
            FolderStep::Name(node) => self.name(rt, alloc, node),
            FolderStep::Unsign => remove(rt, self.signature(alloc)?.as_str(), Place::Identity),
            FolderStep::Mark => self.make_mark(rt, alloc),
            FolderStep::Unmark => remove(rt, self.mark(alloc)?.as_str(), Place::Mark),
            FolderStep::Unname(node) => {
                remove(rt, self.journal(alloc, node)?.as_str(), Place::Journal)
            }
            FolderStep::Sync => self.sync(),
        }
    }

    /// Gives a new file its name.
    fn name<R: Files<File = File>>(
        &self,
        rt: &R,
        alloc: Global,
        node: NodeNo,
    ) -> Result<(), Unopened> {
        let new = self.new_journal(alloc, node)?;
        let path = self.journal(alloc, node)?;
        ask(
            Place::New,
            SystemCall::Rename,
            fs::rename(rt, new.as_str(), path.as_str()),
        )
    }

    /// Makes `ring.made`.
    fn make_mark<R: Files<File = File>>(&self, rt: &R, alloc: Global) -> Result<(), Unopened> {
        let path = self.mark(alloc)?;
        let _file = ask(
            Place::Mark,
            SystemCall::Open,
            File::create(rt, path.as_str()),
        )?;
        Ok(())
    }

    /// The names in the folder are there for good.
    fn sync(&self) -> Result<(), Unopened> {
        ask(Place::Folder, SystemCall::Sync, self.file.sync_all())
    }

    /// The path of a node's file.
    fn journal(&self, alloc: Global, node: NodeNo) -> Result<String, AllocError> {
        format!(in alloc; "{}/node-{node}.crj", self.path)
    }

    /// The path of its first name.
    fn new_journal(&self, alloc: Global, node: NodeNo) -> Result<String, AllocError> {
        format!(in alloc; "{}/node-{node}.crj.new", self.path)
    }

    /// The path of `ring.id`.
    fn signature(&self, alloc: Global) -> Result<String, AllocError> {
        format!(in alloc; "{}/ring.id", self.path)
    }

    /// The path of `ring.made`.
    fn mark(&self, alloc: Global) -> Result<String, AllocError> {
        format!(in alloc; "{}/ring.made", self.path)
    }
}

/// There is no such file then.
fn remove<R: Files<File = File>>(rt: &R, path: &str, place: Place) -> Result<(), Unopened> {
    match fs::remove_file(rt, path) {
        Err(error) if error.kind() == ErrorKind::NotFound => Ok(()),
        answer => ask(place, SystemCall::Remove, answer),
    }
}
