//! The settings of a ring, read from an untyped table.
ghost use Rattle.std.specs.Prelude.{◌≡◌, ◌+◌, ◌≤◌, ◌⊎◌, Ok, Err, Some, None, IfOk, IfErr, IfSome, option_map, string_bytes};
ghost use Rattle.std.specs.List.{list_all};
ghost use Rattle.std.specs.BTreeMap.{keys};
ghost use Rattle.ring_records.specs.declared.limits.TheConstants.{GREATEST_CAPACITY, LEAST_CAPACITY};
ghost use Rattle.toml.specs.Parse.{parse_document};
ghost use Rattle.toml.specs.Data.{get_member};
ghost use Rattle.toml.specs.View.{view, table_view};
ghost use Rattle.ring_service.specs.Settings.{setting_text, told_by, settings_in, number_of, number_in, path_in, capacity_in, in_range, is_path, is_printed, is_setting, knows_all};

use crate::start_fault::{Setting, StartFault};
use ring_records::{GREATEST_CAPACITY, LEAST_CAPACITY};
use std::alloc::Global;
use toml::{Table, Value};

/// What a ring is to be.
#[derive(Drop)]
pub struct Settings {
    /// How many nodes it has, 2 to 16.
    pub nodes: u8,
    /// The folder of the nodes' files: 1 to 200 bytes from 0x21 to 0x7E.
    pub dir: String,
    /// The port of the first node, from 1 on; the others follow it, up to 65,535.
    pub port: u16,
    /// How many bytes of inputs each node takes, 4,096 to 1,048,576.
    pub capacity: u32,
    ghost nodes_range: { (2 ≤ nodes) × (nodes ≤ 16) },
    ghost port_range: { (1 ≤ port) × (port + nodes ≤ 65536) },
    ghost capacity_range: { (LEAST_CAPACITY ≤ capacity) × (capacity ≤ GREATEST_CAPACITY) },
}

// The capacity where none is set, in bytes.
const CAPACITY: u32 = 65_536;

/// Reads settings: a TOML document with the keys `nodes`, `dir`, `port` and, where wanted, `capacity`, and no other.
/// Refused as `Toml`; as `Missing` or `Wrong` of the first key in this order that is; as `Unknown` where there is
/// another key; as `Memory`.
pub fn read_settings(alloc: Global, text: &str) -> Result<Settings, StartFault>
    ensures read { IfOk result (λ s. told_by (parse_document text.now) ≡ Ok (record { nodes = s.nodes; dir = string_bytes s.dir; port = s.port; capacity = s.capacity })) }
    ensures refused { IfErr result (λ why. (why ≡ StartFault.Memory) ⊎ (told_by (parse_document text.now) ≡ Err why)) }
{
    let table = match toml::table_from_str(alloc, text) {
        Ok(table) => table,
        Err(error) if error.span().is_none() => return Err(StartFault::Memory),
        Err(_) => return Err(StartFault::Toml),
    };
    match settings_of(&table) {
        Err(fault) => Err(fault),
        Ok(
            Told {
                nodes,
                dir,
                port,
                capacity,
            },
        ) => match String::from_str(alloc, dir) {
            Ok(dir) => Ok(Settings {
                nodes,
                dir,
                port,
                capacity,
            }),
            Err(_) => Err(StartFault::Memory),
        },
    }
}

/// Settings whose folder stands in the table.
#[derive(Clone, Copy)]
struct Told<'a> {
    nodes: u8,
    dir: &'a str,
    port: u16,
    capacity: u32,
    ghost nodes_range: { (2 ≤ nodes) × (nodes ≤ 16) },
    ghost port_range: { (1 ≤ port) × (port + nodes ≤ 65536) },
    ghost capacity_range: { (LEAST_CAPACITY ≤ capacity) × (capacity ≤ GREATEST_CAPACITY) },
}

fn settings_of(table: &Table) -> Result<Told<'_>, StartFault>
    ensures read { IfOk result (λ t. settings_in (table_view table.now) ≡ Ok (record { nodes = t.nodes; dir = t.dir.now; port = t.port; capacity = t.capacity })) }
    ensures refused { IfErr result (λ why. settings_in (table_view table.now) ≡ Err why) }
{
    let nodes = number(table, Setting::Nodes, 2, 16)? as u8;
    let dir = path(table)?;
    let port = number(table, Setting::Port, 1, 65_536 - u32::from(nodes))? as u16;
    let capacity = capacity(table)?;
    if !knows_all(table) {
        return Err(StartFault::Unknown);
    }
    Ok(Told {
        nodes,
        dir,
        port,
        capacity,
    })
}

/// The capacity that is set, or the one where none is.
fn capacity(table: &Table) -> Result<u32, StartFault>
    ensures value { result ≡ capacity_in (table_view table.now) }
    ensures range { IfOk result (λ n. (LEAST_CAPACITY ≤ n) × (n ≤ GREATEST_CAPACITY)) }
{
    match found(table, Setting::Capacity) {
        None => Ok(CAPACITY),
        Some(value) => number_at(value, Setting::Capacity, LEAST_CAPACITY, GREATEST_CAPACITY),
    }
}

/// The number of a key, in its range.
fn number(table: &Table, key: Setting, low: u32, high: u32) -> Result<u32, StartFault>
    ensures value { result ≡ number_in key low high (table_view table.now) }
    ensures range { IfOk result (λ n. (low ≤ n) × (n ≤ high)) }
{
    match found(table, key) {
        None => Err(StartFault::Missing(key)),
        Some(value) => number_at(value, key, low, high),
    }
}

/// The number that stands at a key, in its range.
fn number_at(value: &Value, key: Setting, low: u32, high: u32) -> Result<u32, StartFault>
    ensures value { result ≡ number_of key low high (view value.now) }
    ensures range { IfOk result (λ n. (low ≤ n) × (n ≤ high)) }
{
    match value.as_integer() {
        None => Err(StartFault::Wrong(key)),
        Some(n) => match in_range(n, low, high) {
            Some(n) => Ok(n),
            None => Err(StartFault::Wrong(key)),
        },
    }
}

/// The number, where it is in its range.
fn in_range(n: i64, low: u32, high: u32) -> Option<u32>
    ensures value { result ≡ in_range low high n }
    ensures range { IfSome result (λ n. (low ≤ n) × (n ≤ high)) }
{
    if i64::from(low) <= n && n <= i64::from(high) {
        Some(n as u32)
    } else {
        None
    }
}

/// The path of the folder.
fn path(table: &Table) -> Result<&str, StartFault>
    ensures path { IfOk result (λ dir. path_in (table_view table.now) ≡ Ok dir.now) }
    ensures refused { IfErr result (λ why. path_in (table_view table.now) ≡ Err why) }
{
    match found(table, Setting::Dir) {
        None => Err(StartFault::Missing(Setting::Dir)),
        Some(value) => match value.as_str() {
            Some(dir) if is_path(dir.as_bytes()) => Ok(dir),
            _ => Err(StartFault::Wrong(Setting::Dir)),
        },
    }
}

/// Whether these bytes may be a path here.
fn is_path(bytes: &[u8]) -> bool
    ensures { result ≡ is_path bytes.now }
{
    1 <= bytes.len() && bytes.len() <= 200 && all_printed(bytes)
}

pub(crate) fn all_printed(bytes: &[u8]) -> bool
    ensures { result ≡ list_all is_printed bytes.now }
{
    bytes.iter().all(|byte| is_printed(*byte))
}

fn is_printed(byte: u8) -> bool
    ensures { result ≡ is_printed byte }
{
    0x21 <= byte && byte <= 0x7E
}

/// The value at a key.
fn found(table: &Table, key: Setting) -> Option<&Value>
    ensures { option_map (λ v. view v.now) result ≡ get_member (setting_text key) (table_view table.now) }
{
    table.get(key.name())
}

/// Whether each key of the table is one of the settings.
fn knows_all(table: &Table) -> bool
    ensures { result ≡ knows_all (table_view table.now) }
{
    knows_each(table)
}

fn knows_each(table: &Table) -> bool
    ensures { result ≡ list_all (λ key. is_setting (string_bytes key)) (keys table.now) }
{
    table.keys().all(|key| is_setting(key.as_str()))
}

pub(crate) fn is_setting(word: &str) -> bool
    ensures { result ≡ is_setting word.now }
{
    word == "nodes" || word == "dir" || word == "port" || word == "capacity"
}
