// A device whose calls fail when a test wants it.
ghost use Rattle.std.specs.Prelude.{◌≡◌, ◌+◌, ◌-◌, ◌^◌, ◌<◌, ◌≤◌, min, ℕ, false, if◌then◌else◌, IsTrue, IsErr, OnOk, OnErr, length};
ghost use Rattle.disk_model.specs.Disk.{synced, Reaches};
ghost use Rattle.disk_model.specs.Calls.{IsPart, Puts, Unsyncs, Elapses, HasCause, IsInReach};
ghost use Rattle.disk_model.specs.Fuse.{fails_at, planned};
ghost use Rattle.disk_model.specs.Unarmed.{is_idle};

use crate::{Device, DeviceFault, SystemCall, SystemFault};
use std::io::ErrorKind;

// Which calls from now on fail.
#[derive(Clone, Copy)]
enum Fuse {
    /// None.
    Idle,
    /// So many pass; the next one fails, and all later ones too if not `once`.
    Armed { after: u64, once: bool },
    /// None any more.
    Spent,
}

/// A device that stands before another and lets its calls of `read_at`, `write_at` and `sync` pass until its fuse
/// blows. A write at which it blows is passed on and then answered as a fault; such a read or sync is not passed on.
#[derive(Drop)]
pub struct FuseDevice<D: Device> {
    inner: D,
    fuse: Fuse,
    faults: u64,
}

// Whether the fuse blows at this call; that is counted then.
fn blows(fuse: &mut Fuse, faults: &mut u64) -> bool
    ensures fails { result ≡ fails_at fuse.old 0 }
    ensures next { (k : ℕ) → fails_at fuse.new k ≡ fails_at fuse.old (k + 1) }
    ensures idle { is_idle fuse.new ≡ is_idle fuse.old }
    ensures counts { faults.new ≡ (if result then min (faults.old + 1) (2 ^ 64 - 1) else faults.old) }
{
    let fails = match *fuse {
        Fuse::Idle | Fuse::Spent => false,
        Fuse::Armed { after: 0, once } => {
            if once {
                *fuse = Fuse::Spent;
            }
            true
        }
        Fuse::Armed { after, once } => {
            *fuse = Fuse::Armed {
                after: after - 1,
                once,
            };
            false
        }
    };
    if fails {
        *faults = faults.saturating_add(1);
    }
    fails
}

impl<D: Device> FuseDevice<D> {
    ghost use Rattle.disk_model.specs.FuseDevice.{inner_of, will_fail, own_faults};
    ghost use Rattle.disk_model.specs.Unarmed.{is_idle_device};

    /// A device that passes `after` calls and then fails: the next call alone if `once`, else all later ones.
    pub fn new(inner: D, after: u64, once: bool) -> FuseDevice<D>
        ensures inner { inner_of result ≡ inner }
        ensures fuse { (k : ℕ) → will_fail result k ≡ planned after once k }
        ensures faults { own_faults result ≡ 0 }
    {
        FuseDevice {
            inner,
            fuse: Fuse::Armed { after, once },
            faults: 0,
        }
    }

    /// A device that passes every call until it is armed.
    pub fn idle(inner: D) -> FuseDevice<D>
        ensures inner { inner_of result ≡ inner }
        ensures fuse { (k : ℕ) → will_fail result k ≡ false }
        ensures idle { IsTrue (is_idle_device result) }
        ensures faults { own_faults result ≡ 0 }
    {
        FuseDevice {
            inner,
            fuse: Fuse::Idle,
            faults: 0,
        }
    }

    /// Sets the fuse anew: from now on `after` calls pass, and then the next fails if `once`, else all later ones.
    pub fn arm(&mut self, after: u64, once: bool)
        ensures inner { inner_of self.new ≡ inner_of self.old }
        ensures fuse { (k : ℕ) → will_fail self.new k ≡ planned after once k }
        ensures faults { own_faults self.new ≡ own_faults self.old }
    {
        self.fuse = Fuse::Armed { after, once };
    }

    /// The device behind the fuse.
    pub fn into_inner(self) -> D
        ensures { result ≡ inner_of self }
    {
        let FuseDevice {
            inner,
            fuse: _,
            faults: _,
        } = self;
        inner
    }
}

impl<D: Device> Device for FuseDevice<D> {
    ghost use Rattle.disk_model.specs.FuseDevice.{inner_of, will_fail};
    ghost use Rattle.disk_model.specs.Unarmed.{count_of, reach_of};

    ghost disk = { λ device. D.Device.disk (inner_of device) };

    ghost clock = { λ device. D.Device.clock (inner_of device) };

    ghost left_since = { λ device. D.Device.left_since (inner_of device) };

    ghost count = { count_of D.Device.count };

    ghost reach = { reach_of D.Device.reach };

    ghost may_stay = { λ device. D.Device.may_stay (inner_of device) };

    ghost counts_now = { λ device. D.Device.counts_now (inner_of device) };

    ghost only_now = { λ device. D.Device.only_now (inner_of device) };

    fn size(&self) -> u64 {
        self.inner.size()
    }

    fn failures(&self) -> u64 {
        self.inner.failures().saturating_add(self.faults)
    }

    fn cause(&self) -> Option<SystemFault> {
        if self.faults > 0 {
            return Some(SystemFault::of_kind(SystemCall::Write, ErrorKind::Other));
        }
        self.inner.cause()
    }

    fn read_at(&mut self, off: u64, buf: &mut [u8]) -> Result<(), DeviceFault>
        ensures read { OnOk result (IsPart off buf.new (D.disk (inner_of self.old)).image) }
        ensures disk { D.disk (inner_of self.new) ≡ D.disk (inner_of self.old) }
        ensures time { Elapses (D.clock (inner_of self.old)) (D.clock (inner_of self.new)) (D.left_since (inner_of self.old)) (D.left_since (inner_of self.new)) (D.disk (inner_of self.new)) }
        ensures cause { HasCause (count_of D.count self.old) (count_of D.count self.new) result }
        ensures reach { IsInReach (off + length buf.old) (reach_of D.reach self.old) (reach_of D.reach self.new) result }

        // The fuse.
        ensures fuse { (k : ℕ) → will_fail self.new k ≡ will_fail self.old (k + 1) }
        ensures passed { will_fail self.old 0 ≡ false → IsInReach (off + length buf.old) (D.reach (inner_of self.old)) (D.reach (inner_of self.new)) result }
        ensures blown { IsTrue (will_fail self.old 0) → IsErr result × (inner_of self.new ≡ inner_of self.old) }
    {
        if blows(&mut self.fuse, &mut self.faults) {
            return Err(DeviceFault);
        }
        self.inner.read_at(off, buf)
    }

    fn write_at(&mut self, off: u64, bytes: &[u8]) -> Result<(), DeviceFault>
        ensures written { OnOk result (Puts off bytes.now (D.disk (inner_of self.old)).image (D.disk (inner_of self.new)).image) }
        ensures disk { Unsyncs off (length bytes.now) (D.disk (inner_of self.old)) (D.disk (inner_of self.new)) }
        ensures time { Elapses (D.clock (inner_of self.old)) (D.clock (inner_of self.new)) (D.left_since (inner_of self.old)) (D.left_since (inner_of self.new)) (D.disk (inner_of self.new)) }
        ensures cause { HasCause (count_of D.count self.old) (count_of D.count self.new) result }
        ensures reach { IsInReach (off + length bytes.now) (reach_of D.reach self.old) (reach_of D.reach self.new) result }

        // The fuse. The device behind it has the write either way.
        ensures fuse { (k : ℕ) → will_fail self.new k ≡ will_fail self.old (k + 1) }
        ensures passed { will_fail self.old 0 ≡ false → IsInReach (off + length bytes.now) (D.reach (inner_of self.old)) (D.reach (inner_of self.new)) result }
        ensures blown { IsTrue (will_fail self.old 0) → IsErr result }
        ensures passed_on { Reaches (D.reach (inner_of self.old)) (off + length bytes.now) → Puts off bytes.now (D.disk (inner_of self.old)).image (D.disk (inner_of self.new)).image }
    {
        let fails = blows(&mut self.fuse, &mut self.faults);
        let answer = self.inner.write_at(off, bytes);
        if fails { Err(DeviceFault) } else { answer }
    }

    fn sync(&mut self) -> Result<(), DeviceFault>
        ensures synced { OnOk result (D.disk (inner_of self.new) ≡ synced (D.disk (inner_of self.old))) }
        ensures failed { OnErr result (D.disk (inner_of self.new) ≡ D.disk (inner_of self.old)) }
        ensures time { Elapses (D.clock (inner_of self.old)) (D.clock (inner_of self.new)) (D.left_since (inner_of self.old)) (D.left_since (inner_of self.new)) (D.disk (inner_of self.new)) }
        ensures cause { HasCause (count_of D.count self.old) (count_of D.count self.new) result }
        ensures reach { IsInReach 0 (reach_of D.reach self.old) (reach_of D.reach self.new) result }

        // The fuse.
        ensures fuse { (k : ℕ) → will_fail self.new k ≡ will_fail self.old (k + 1) }
        ensures passed { will_fail self.old 0 ≡ false → IsInReach 0 (D.reach (inner_of self.old)) (D.reach (inner_of self.new)) result }
        ensures blown { IsTrue (will_fail self.old 0) → IsErr result × (inner_of self.new ≡ inner_of self.old) }
    {
        if blows(&mut self.fuse, &mut self.faults) {
            return Err(DeviceFault);
        }
        self.inner.sync()
    }
}
