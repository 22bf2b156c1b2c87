//! Objects with their rows at hand that are asked whether they match a filter.
ghost use Rattle.std.specs.Prelude.{◌≡◌, ◌<◌, ◌^◌, false, length, All, IfOk};
ghost use Rattle.cal_model.specs.Instances.Rows.{has_fine_rule};
ghost use Rattle.cal_model.specs.Objects.ObjectFacts.{IsRead};
ghost use Rattle.cal_model.specs.TimeZones.TableBounds.{IsTable};
ghost use Rattle.overlap_rules.specs.Bounds.{IsNear, IsNearRow};
ghost use Rattle.bench.specs.Entries.{IsEntry};

use crate::objects::{LIMIT, print_fault};
use crate::parts;
use cal_base::{Element, List, NoMemory, Octets, SharedList, Steps};
use cal_model::{Content, Filter, Object, ReportRequest, Row, ZoneTable};
use cal_object::{ReadFault, read_object};
use dav_body::read_body;
use dav_elements::read_report;
use filter_eval::Prepared;
use rrule_sets::{has_fine_rule, windows_rows};
use std::alloc::Global;
use std::io;
use std::marker::Brand;
use std::sync::ledger::{Blank, Ledger};
use std::time::Instant;

/// How many windows of 64 days are looked at, from the start of 1970 on.
const WINDOWS: i32 = 64;

/// More seconds than lie between 1970 and any moment of a row.
const FAR: i64 = 100_000_000_000;

/// An object without its zones, and its rows in those windows.
#[derive(Drop)]
pub struct Entry {
    pub object: Object,
    pub rows: List<Row>,
}

/// The clock of UTC.
fn utc(alloc: Global) -> ZoneTable
    ensures { IsTable result }
{
    ZoneTable {
        name: Octets::new(alloc),
        before: 0,
        onsets: SharedList::new(),
    }
}

/// The windows.
fn windows(alloc: Global) -> Result<List<i32>, NoMemory> {
    let mut windows = List::new(alloc);
    for window in 0..WINDOWS {
        windows.push(window)?;
    }
    Ok(windows)
}

/// A moment near 1970, as each one of a row is.
fn near(seconds: i64) -> i64
    ensures { IsNear result }
{
    if -FAR < seconds && seconds < FAR {
        seconds
    } else {
        0
    }
}

/// A row near 1970, as each one of an object that was read is.
fn near_row(row: &Row) -> Row
    ensures { IsNearRow result }
{
    Row {
        id: row.id,
        start: near(row.start),
        end: near(row.end),
        component: row.component,
        id_kind: row.id_kind,
        kind: row.kind,
    }
}

/// Some rows, which lie near 1970.
fn near_rows(alloc: Global, rows: &[Row]) -> Result<List<Row>, NoMemory>
    ensures { IfOk result (All IsNearRow) }
{
    let mut near = List::new(alloc);
    'rows: for row in rows {
        near.push(near_row(row))?;
    }
    Ok(near)
}

/// The rows of an object in the windows.
fn found_rows<L: Ledger>(
    alloc: Global,
    object: &Object,
    blank: Blank,
) -> Result<List<Row>, NoMemory>
    requires read { IsRead object.now }
    requires few { length object.now.components < 2 ^ 32 }
    requires coarse { has_fine_rule object.now ≡ false }
    requires name { L.name ≡ blank.name }
    requires parts { L.parts ≡ blank.parts }
    requires some { 0 < blank.parts }
    ensures { IfOk result (All IsNearRow) }
{
    let mut steps = Steps::<L>::open(blank);
    let windows = windows(alloc)?;
    let rows = windows_rows(alloc, object, windows.as_slice(), &mut steps)?;
    near_rows(alloc, rows.as_slice())
}

/// The same, with steps that nobody reads; none of an object that is not expanded.
fn rows_of(alloc: Global, object: &Object) -> Result<List<Row>, NoMemory>
    requires read { IsRead object.now }
    requires few { length object.now.components < 2 ^ 32 }
    ensures { IfOk result (All IsNearRow) }
{
    if has_fine_rule(object) {
        return Ok(List::new(alloc));
    }
    found_rows::<Brand>(alloc, object, Blank::new(1))
}

/// An object with its rows. Zones are left out, so its times have to be of UTC.
fn entry_with(alloc: Global, object: Object, rows: List<Row>) -> Entry
    requires { All IsNearRow rows }
    ensures { IsEntry result }
{
    let Object {
        kind,
        uid,
        tree,
        zones: _zones,
        components,
    } = object;
    let object = Object {
        kind,
        uid,
        tree,
        zones: List::new(alloc),
        components,
    };
    Entry { object, rows }
}

/// The object of a text with its rows.
fn entry_of(alloc: Global, text: &[u8]) -> Result<Entry, ReadFault>
    ensures { IfOk result IsEntry }
{
    if text.len() > LIMIT {
        return Err(ReadFault::NotCalendar { place: 0 });
    }
    match read_object(alloc, text) {
        Ok(object) => match rows_of(alloc, &object) {
            Ok(rows) => Ok(entry_with(alloc, object, rows)),
            Err(NoMemory) => {
                drop(object);
                Err(ReadFault::NoMemory)
            }
        },
        Err(fault) => Err(fault),
    }
}

/// The objects of some texts, each behind a `|`.
fn entries(alloc: Global, texts: &[u8]) -> Result<List<Entry>, ReadFault>
    ensures { IfOk result (All IsEntry) }
{
    let mut entries = List::new(alloc);
    'objects: for text in texts.split(|octet| *octet == b'|').skip(1) {
        entries.push(entry_of(alloc, text)?)?;
    }
    Ok(entries)
}

/// Whether an object matches.
fn is_matching(
    alloc: Global,
    prepared: &Prepared<'_>,
    entry: &Entry,
    zone: &ZoneTable,
) -> Result<bool, NoMemory>
    requires zone { IsTable zone.now }
    requires entry { IsEntry entry.now }
{
    prepared.matches(alloc, &entry.object, &entry.rows, zone)
}

/// How many objects match a filter that is made ready.
fn matching(
    alloc: Global,
    prepared: &Prepared<'_>,
    entries: &[Entry],
    zone: &ZoneTable,
) -> Result<u32, NoMemory>
    requires zone { IsTable zone.now }
    requires entries { All IsEntry entries.now }
{
    let mut count = 0u32;
    for entry in entries {
        if is_matching(alloc, prepared, entry, zone)? {
            count = count.wrapping_add(1);
        }
    }
    Ok(count)
}

/// How many match, where the filter is made ready once for all.
fn count_matches(alloc: Global, filter: &Filter, entries: &[Entry]) -> Result<u32, NoMemory>
    requires { All IsEntry entries.now }
{
    match Prepared::of(alloc, filter) {
        Ok(prepared) => matching(alloc, &prepared, entries, &utc(alloc)),
        Err(NoMemory) => Err(NoMemory),
    }
}

/// Asks the objects so often, and gives the nanoseconds of the round that took least.
fn least_time(rt: &HostRuntime, filter: &Filter, entries: &[Entry], rounds: u32) -> io::Result<u128>
    requires { All IsEntry entries.now }
{
    let mut least = u128::MAX;
    for _ in 0..rounds {
        let begin = Instant::now(rt)?;
        let found = count_matches(rt.alloc(), filter, entries);
        let spent = begin.elapsed(rt)?;
        if found.is_ok() {
            least = least.min(spent.as_nanos());
        }
    }
    Ok(least)
}

/// Prints how many objects match, and how long an object took where that is measured.
fn print_matches(
    rt: &HostRuntime,
    filter: &Filter,
    entries: &[Entry],
    rounds: u32,
) -> io::Result<()>
    requires { All IsEntry entries.now }
{
    match count_matches(rt.alloc(), filter, entries) {
        Ok(count) => println!(rt; "{count} of {} match", entries.len())?,
        Err(NoMemory) => println!(rt; "out of memory")?,
    }
    if rounds > 0 && !entries.is_empty() {
        let least = least_time(rt, filter, entries, rounds)?;
        println!(rt; "{} ns an object", least / entries.len() as u128)?;
    }
    Ok(())
}

/// The same of the objects of some texts.
fn measure_filter(rt: &HostRuntime, filter: &Filter, texts: &[u8], rounds: u32) -> io::Result<()> {
    match entries(rt.alloc(), texts) {
        Ok(entries) => print_matches(rt, filter, entries.as_slice(), rounds),
        Err(fault) => print_fault(rt, fault),
    }
}

/// The filter of a calendar-query.
fn filter_of(content: &Content) -> Option<&Filter> {
    match content {
        Content::Report(ReportRequest::Query { filter, .. }) => Some(filter),
        _ => None,
    }
}

/// The same of the filter of a calendar-query.
fn measure_content(
    rt: &HostRuntime,
    content: &Content,
    texts: &[u8],
    rounds: u32,
) -> io::Result<()> {
    match filter_of(content) {
        Some(filter) => measure_filter(rt, filter, texts, rounds),
        None => println!(rt; "no query"),
    }
}

/// The same of the filter that a body has.
fn measure_root(rt: &HostRuntime, root: &Element, texts: &[u8], rounds: u32) -> io::Result<()> {
    match read_report(rt.alloc(), root) {
        Ok(content) => {
            let printed = measure_content(rt, &content, texts, rounds);
            drop(content);
            printed
        }
        Err(NoMemory) => println!(rt; "out of memory"),
    }
}

/// Prints how many objects match the filter of a calendar-query, and of how many; and where they are
/// to be asked more than 0 times, the nanoseconds of an object in the round that took least. The
/// objects stand behind the body, each behind a `|`.
pub fn measure(rt: &HostRuntime, input: &[u8], rounds: u32) -> io::Result<()> {
    let (body, _) = parts(input, b'|');
    match read_body(rt.alloc(), body) {
        Ok(root) => measure_root(rt, &root, input, rounds),
        Err(_) => println!(rt; "no body"),
    }
}
