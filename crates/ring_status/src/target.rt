// What a target asks.
ghost use Rattle.std.specs.Prelude.{◌≡◌, ◌==◌, ok_or, option_map, position};
ghost use Rattle.ring_status.specs.Targets.{above_in, after_in, asked_of, cut_at, group_word, held_in, leader_of, next_by, next_of, node_in, node_word, page_for, number_in, page_by_one, page_by_two, page_of, target_of, wait_in, waited};

use crate::status::Status;
use line_words::{behind, read_group, read_number};
use ring_records::{GroupName, NodeNo};

/// What is asked.
#[derive(Clone, Copy, PartialEq, Eq)]
pub enum Target {
    /// A page of the ring for people.
    Page,
    /// A page of a group for people, by the board of node 1.
    Group(GroupName),
    /// Whether the process answers.
    Live,
    /// Whether the ring can elect.
    Ready,
    /// Whether each node takes Stands and messages.
    Health,
    /// The ring and its nodes, as JSON.
    Status,
    /// Their numbers, in the text format of Prometheus.
    Metrics,
    /// A page of the groups with their latest leaders: those behind a group, by the board of a node.
    Leaders(NodeNo, Option<GroupName>),
    /// The latest leader of a group, by the board of a node.
    LeaderOf(NodeNo, GroupName),
    /// The latest leader of a group in a term above this one, by the board of a node, which is waited for so many seconds,
    /// at most 60.
    NextOf(NodeNo, GroupName, u64, u64),
    /// The latest leader of a group in a term above this one, or in this one where it is not present, by the board of a node,
    /// which is waited for so many seconds, at most 60.
    HeldOf(NodeNo, GroupName, u64, u64),
}

// The place of the first such byte.
fn place_of(text: &[u8], byte: u8) -> Option<usize>
    ensures { result ≡ position (λ b. b == byte) text.now }
{
    text.iter().position(|b| *b == byte)
}

#[tactic(auto, unfolding(crate::specs::Targets::cut_at))]
// What stands before the byte, and what stands behind it where it is there.
pub(crate) fn cut_at(text: &[u8], byte: u8) -> (&[u8], Option<&[u8]>)
    ensures before { result.0.now ≡ (cut_at byte text.now).0 }
    ensures behind { option_map (λ rest. rest.now) result.1 ≡ (cut_at byte text.now).1 }
{
    match place_of(text, byte) {
        None => (text, None),
        Some(at) => (&text[..at], Some(&text[at + 1..])),
    }
}

fn node_word(word: &[u8]) -> Option<NodeNo>
    ensures { result ≡ node_word word.now }
{
    let number = read_number(word, 1, 16).ok()?;
    NodeNo::new(number as u8).ok()
}

fn group_word(word: &[u8]) -> Option<GroupName>
    ensures { result ≡ group_word word.now }
{
    read_group(word).ok()
}

// The node of `node=I`.
fn node_in(parameter: &[u8]) -> Option<NodeNo>
    ensures { result ≡ node_in parameter.now }
{
    node_word(behind(parameter, b"node=")?)
}

// The number from low to high behind this front.
fn number_in(front: &[u8], low: u64, high: u64, parameter: &[u8]) -> Option<u64>
    ensures { result ≡ number_in front.now low high parameter.now }
{
    read_number(behind(parameter, front)?, low, high).ok()
}

// The term of `above=T`.
fn above_in(parameter: &[u8]) -> Option<u64>
    ensures { result ≡ above_in parameter.now }
{
    number_in(b"above=", 0, 999_999_999, parameter)
}

// The term of `held=T`.
fn held_in(parameter: &[u8]) -> Option<u64>
    ensures { result ≡ held_in parameter.now }
{
    number_in(b"held=", 0, 999_999_999, parameter)
}

// The seconds of `wait=S`.
fn wait_in(parameter: &[u8]) -> Option<u64>
    ensures { result ≡ wait_in parameter.now }
{
    number_in(b"wait=", 0, 60, parameter)
}

// The group of `after=GROUP`.
fn after_in(parameter: &[u8]) -> Option<GroupName>
    ensures { result ≡ after_in parameter.now }
{
    group_word(behind(parameter, b"after=")?)
}

// The page of one parameter, of either kind.
fn page_by_one(parameter: &[u8]) -> Option<Target>
    ensures { result ≡ page_by_one parameter.now }
{
    match node_in(parameter) {
        Some(node) => Some(Target::Leaders(node, None)),
        None => Some(Target::Leaders(NodeNo::first(), Some(after_in(parameter)?))),
    }
}

fn page_by_two(first: &[u8], second: &[u8]) -> Option<Target>
    ensures { result ≡ page_by_two first.now second.now }
{
    let node = node_in(first)?;
    Some(Target::Leaders(node, Some(after_in(second)?)))
}

// The page that a query asks for.
fn page_of(query: Option<&[u8]>) -> Option<Target>
    ensures { result ≡ page_of (option_map (λ q. q.now) query.entry) }
{
    match query {
        None => Some(Target::Leaders(NodeNo::first(), None)),
        Some(query) => match cut_at(query, b'&') {
            (only, None) => page_by_one(only),
            (first, Some(second)) => page_by_two(first, second),
        },
    }
}

// What is waited for so many seconds: `above=T` or `held=T`.
fn waited(group: GroupName, node: NodeNo, first: &[u8], seconds: u64) -> Option<Target>
    ensures { result ≡ waited group node first.now seconds }
{
    match above_in(first) {
        Some(above) => Some(Target::NextOf(node, group, above, seconds)),
        None => Some(Target::HeldOf(node, group, held_in(first)?, seconds)),
    }
}

// What `above=T` or `held=T` asks for, and `wait=S` behind it.
fn next_of(group: GroupName, node: NodeNo, first: &[u8], second: &[u8]) -> Option<Target>
    ensures { result ≡ next_of group node first.now second.now }
{
    let seconds = wait_in(second)?;
    waited(group, node, first, seconds)
}

// The next leader that two parameters ask for, or three, of which the first names the node.
fn next_by(group: GroupName, first: &[u8], rest: &[u8]) -> Option<Target>
    ensures { result ≡ next_by group first.now rest.now }
{
    match node_in(first) {
        Some(node) => match cut_at(rest, b'&') {
            (_, None) => None,
            (second, Some(third)) => next_of(group, node, second, third),
        },
        None => next_of(group, NodeNo::first(), first, rest),
    }
}

// What a query asks of the group.
fn asked_of(group: GroupName, query: Option<&[u8]>) -> Option<Target>
    ensures { result ≡ asked_of group (option_map (λ q. q.now) query.entry) }
{
    match query {
        None => Some(Target::LeaderOf(NodeNo::first(), group)),
        Some(query) => match cut_at(query, b'&') {
            (only, None) => Some(Target::LeaderOf(node_in(only)?, group)),
            (first, Some(rest)) => next_by(group, first, rest),
        },
    }
}

// The leader that a name and a query ask for.
fn leader_of(name: &[u8], query: Option<&[u8]>) -> Option<Target>
    ensures { result ≡ leader_of name.now (option_map (λ q. q.now) query.entry) }
{
    asked_of(group_word(name)?, query)
}

// The page of the group of this name.
fn group_page(name: &[u8]) -> Option<Target>
    ensures { result ≡ page_for name.now }
{
    Some(Target::Group(group_word(name)?))
}

// A page, where there is one.
fn or_bad(page: Option<Target>) -> Result<Target, Status>
    ensures { result ≡ ok_or page Status.BadRequest }
{
    match page {
        Some(page) => Ok(page),
        None => Err(Status::BadRequest),
    }
}

#[tactic(auto, unfolding(crate::specs::Targets::target_of))]
/// What a target asks: `/live`, `/ready`, `/health`, `/status`, `/metrics`, `/` and `/groups/GROUP`, whose query is not read;
/// `/leaders`, with `node=I` or `after=GROUP` or both, in this order and parted by `&`; `/leaders/GROUP`, with `node=I` or
/// nothing, and behind either with `above=T&wait=S` or `held=T&wait=S`. Node 1 is asked where none is named. Refused as 404 where
/// there is no such page, and else as 400 by its name or its query.
pub fn read_target(target: &[u8]) -> Result<Target, Status>
    ensures { result ≡ target_of target.now }
{
    let (path, query) = cut_at(target, b'?');
    if path == b"/live".as_slice() {
        return Ok(Target::Live);
    }
    if path == b"/ready".as_slice() {
        return Ok(Target::Ready);
    }
    if path == b"/health".as_slice() {
        return Ok(Target::Health);
    }
    if path == b"/status".as_slice() {
        return Ok(Target::Status);
    }
    if path == b"/metrics".as_slice() {
        return Ok(Target::Metrics);
    }
    if path == b"/leaders".as_slice() {
        return or_bad(page_of(query));
    }
    if path == b"/".as_slice() {
        return Ok(Target::Page);
    }
    if let Some(name) = behind(path, b"/groups/") {
        return or_bad(group_page(name));
    }
    match behind(path, b"/leaders/") {
        Some(name) => or_bad(leader_of(name, query)),
        None => Err(Status::NotFound),
    }
}
