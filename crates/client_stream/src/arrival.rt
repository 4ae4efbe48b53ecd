//! Who comes next.
use std::net::{TcpListener, TcpStream};
use std::sync::Wait;
use std::time::{Clock, Duration};

/// For how many milliseconds it is waited at most before a client is asked for again.
const LONGEST_PAUSE: u64 = 1_000;

/// The next client. Where none is to be had, as for want of a descriptor, it is asked again after a pause, twice as long
/// each time.
pub fn next_client<R: Wait + Clock>(rt: &R, listener: &TcpListener) -> Option<TcpStream> {
    let mut pause = 1u64;
    for _ in rt.forever() {
        match listener.accept() {
            Ok((stream, _)) => return Some(stream),
            Err(_) => rt.sleep(Duration::from_millis(pause)),
        }
        pause = pause.saturating_mul(2).min(LONGEST_PAUSE);
    }
    None
}
