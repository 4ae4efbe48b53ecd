//! The checkpoints that a start makes.
ghost use Rattle.std.specs.Prelude.{IfOk};
ghost use Rattle.ring_start.specs.Written.{IsReady, IsTried};

use crate::found::Found;
use crate::open_node::OpenNode;
use crate::ready::Ready;
use crate::unopened::{Place, Unopened};
use disk_model::{Device, FileDevice};

/// Has the node make a checkpoint, and another one where its area in use was of an earlier layout: then no area of
/// such a layout is left, which an earlier program would take for what the node holds.
pub(crate) fn renew(opened: OpenNode<FileDevice>) -> Result<Ready<FileDevice>, Unopened>
    ensures { IfOk result (λ ready. IsReady (Found.There opened) ready) }
{
    let is_of_old = opened.is_of_old();
    let ready = renew_once(opened)?;
    if !(is_of_old && ready.is_written) {
        return Ok(ready);
    }
    let again = renew_once(ready.opened)?;
    Ok(Ready {
        opened: again.opened,
        is_written: true,
    })
}

/// Has the node make a checkpoint. Where its file refuses it, the system's answer is told.
fn renew_once(opened: OpenNode<FileDevice>) -> Result<Ready<FileDevice>, Unopened>
    ensures { IfOk result (λ ready. IsTried opened ready) }
{
    match opened.renew() {
        Ok(ready) => Ok(ready),
        Err((device, refusal)) => {
            let cause = device.cause();
            drop(device);
            Err(Unopened::caused(refusal, Place::Journal, cause))
        }
    }
}
