//! What a node sends again.
ghost use Rattle.commit_hub.specs.Holders.{begun_by};
ghost use Rattle.commit_hub.specs.Told.{IsWindow};

use crate::links::Links;
use commit_hub::{Begun, Hub, NodeLedger};
use ring_post::{Letter, is_missing};
use ring_records::Packet;
use std::sync::Wait;
use std::time::Clock;

/// How many messages are sent again at once. So a letterbox has twice as many at most that were sent before.
const AGAIN: usize = 1_024;

/// Sends the packet of this index of the window.
fn send<A: NodeLedger, R: Wait>(
    rt: &R,
    window: &[Packet],
    begun: &Begun<A>,
    index: usize,
    links: &Links<'_>,
)
    requires { IsWindow A.member A.opening (begun_by begun.now) window.now }
{
    if let Some(letter) = Letter::of_window(links.place(), window, begun, index) {
        links.post.send(rt, letter);
    }
}

/// Sends all that the successor has not credited durably: before the node takes its first input of a run.
pub(crate) fn send_window<A: NodeLedger, R: Wait>(rt: &R, hub: &Hub<A>, links: &Links<'_>) {
    if let Ok((window, begun)) = hub.window(rt) {
        for index in 0..window.len() {
            send(rt, &window, &begun, index, links);
        }
    }
}

/// Sends again what the successor may miss, if anything.
pub(crate) fn send_what_may_miss<A: NodeLedger, R: Wait + Clock>(
    rt: &R,
    hub: &Hub<A>,
    links: &Links<'_>,
) {
    if !links.may_have_lost(rt) {
        return;
    }
    if let Ok((window, begun)) = hub.window(rt) {
        send_again(rt, &window, &begun, links);
    }
}

/// Sends the first messages of the window again that the successor is not known to have; of what it is known to have the node may
/// not have been told yet.
fn send_again<A: NodeLedger, R: Wait>(
    rt: &R,
    window: &[Packet],
    begun: &Begun<A>,
    links: &Links<'_>,
)
    requires { IsWindow A.member A.opening (begun_by begun.now) window.now }
{
    let heard = links.heard();
    let mut left = AGAIN;
    for index in 0..window.len() {
        if left == 0 {
            break;
        }
        if is_missing(&window[index], heard) {
            left -= 1;
            send(rt, window, begun, index, links);
        }
    }
}
