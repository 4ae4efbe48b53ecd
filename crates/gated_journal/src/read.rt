//! A read of a device.
ghost use Rattle.std.specs.Prelude.{◌+◌, length, OnOk};
ghost use Rattle.disk_model.specs.Calls.{IsPart};
ghost use Rattle.gated_journal.specs.OnlyReads.{OnlyReadsTo, NoCause};

use disk_model::Device;
use ring_records::Refusal;

/// Reads the bytes from `off` on.
pub(crate) fn read_part<D: Device>(device: &mut D, off: u64, buf: &mut [u8]) -> Result<(), Refusal>
    ensures part { OnOk result (IsPart off buf.new (D.disk device.old).image) }
    ensures device { OnlyReadsTo (off + length buf.old) D.Device device.old device.new result NoCause }
{
    match device.read_at(off, buf) {
        Ok(()) => Ok(()),
        Err(_) => Err(Refusal::Device(device.failures())),
    }
}
