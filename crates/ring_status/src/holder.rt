// What is told of a leader.

/// What is known of who leads: whether a session is open that stood so, or its client resigned, and the text that it tells, if
/// not an empty one.
#[derive(Clone, Copy)]
pub struct Holder<'a> {
    pub present: bool,
    pub resigned: bool,
    pub text: &'a str,
}
