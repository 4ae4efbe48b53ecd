//! A ring's identity, and which ring a start is for.
ghost use Rattle.std.specs.Prelude.{◌≡◌, ◌↔◌, IsOk, OnErr, Err, None, Some};
ghost use Rattle.folder_plan.specs.declared.identity.Identity.{Identity};

use crate::folder::Folder;
use crate::ring_fault::RingFault;
use crate::unopened::{CHANCE, Place, Unopened, ask};
use disk_model::SystemCall;
use folder_plan::Identity;
use ring_records::NodeNo;
use std::alloc::Global;
use std::fs::File;
use std::io::{ErrorKind, Read, Write};
use std::rt::Files;

/// Refused where the identity of the folder is not the one that is asked for, or it has none.
fn look_at_identity(found: Option<Identity>, asked: Identity) -> Result<(), RingFault>
    ensures same { IsOk result ↔ (found ≡ Some asked) }
    ensures other { (id : Identity) → found ≡ Some id → OnErr result (result ≡ Err (RingFault.OtherRing id)) }
    ensures none { found ≡ None → result ≡ Err RingFault.NoIdentity }
{
    match found {
        Some(identity) if identity == asked => Ok(()),
        Some(identity) => Err(RingFault::OtherRing(identity)),
        None => Err(RingFault::NoIdentity),
    }
}

/// An identity of 128 bits that the system draws by chance.
pub(crate) fn draw<R: Files<File = File>>(rt: &R) -> Result<Identity, Unopened> {
    let mut file = ask(Place::Chance, SystemCall::Open, File::open(rt, CHANCE))?;
    let mut bits = [0; 16];
    ask(Place::Chance, SystemCall::Read, file.read_exact(&mut bits))?;
    Ok(Identity::new(bits))
}

/// Writes a new file of this identity, and syncs it.
pub(crate) fn write_identity<R: Files<File = File>>(
    rt: &R,
    path: &str,
    identity: &Identity,
) -> Result<(), Unopened> {
    let mut file = ask(Place::Identity, SystemCall::Open, File::create(rt, path))?;
    let digits = identity.digits();
    ask(Place::Identity, SystemCall::Write, file.write_all(&digits))?;
    ask(Place::Identity, SystemCall::Write, file.write_all(b"\n"))?;
    ask(Place::Identity, SystemCall::Sync, file.sync_all())
}

/// More bytes than a file of an identity has.
const IDENTITY_BYTES: u64 = 64;

/// The identity that this file tells, where it is there and tells one.
pub(crate) fn read_identity<R: Files<File = File>>(
    rt: &R,
    alloc: Global,
    path: &str,
) -> Result<Option<Identity>, Unopened> {
    let opened = match File::open(rt, path) {
        Err(error) if error.kind() == ErrorKind::NotFound => return Ok(None),
        opened => opened,
    };
    let file = ask(Place::Identity, SystemCall::Open, opened)?;
    let mut bytes = Vec::new(alloc);
    let answer = file.take(IDENTITY_BYTES).read_to_end(&mut bytes);
    ask(Place::Identity, SystemCall::Read, answer)?;
    Ok(Identity::in_file(&bytes))
}

/// The folder, where its ring has the identity that is asked for.
pub(crate) fn of_ring<'a, R: Files<File = File>>(
    rt: &R,
    alloc: Global,
    folder: Folder<'a>,
    ring: Option<Identity>,
) -> Result<Folder<'a>, RingFault> {
    let Some(asked) = ring else {
        return Ok(folder);
    };
    match folder.identity(rt, alloc) {
        Ok(found) => match look_at_identity(found, asked) {
            Ok(()) => Ok(folder),
            Err(fault) => Err(fault),
        },
        Err(why) => Err(RingFault::Node(NodeNo::first(), why)),
    }
}
