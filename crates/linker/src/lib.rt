// The linker: from a source text to its code table, or to the text's first fault.
#![tactic(auto)]

ghost use Rattle.std.specs.Prelude.{◌≡◌, ◌≤◌, length};
ghost use Rattle.language.specs.Limits.{max_text};
ghost use Rattle.language.specs.Reading.{read};
ghost use Rattle.assembler.specs.Scanning.{parsed_from};
ghost use Rattle.linker.specs.Linked.{linked, judged, link_number};
ghost use Rattle.linker.specs.Into.{links_over, linked_over, links_into, linked_into};

use assembler::exits::fill;
use assembler::scan::scan;
use emitter::pass::Draft;
use language::{Fault, TEXT, Table};
use lexer::skip;

// From the place after the outermost `(` on, as `link_over` does it.
fn link_from(text: &[u8], from: usize, places: &mut [i32]) -> Result<usize, Fault>
    requires { length text.now ≤ max_text }
    ensures { links_over result places.new ≡ linked_over places.old (linked (parsed_from text.now from)) }
{
    let mut draft = Draft::fresh();
    let next = scan(text, from, &mut draft)?;
    let end = skip(text, next)?;
    if end < text.len() {
        return Err(Fault::StrayMark);
    }
    let used = draft.used;
    // Who only asks whether a text links needs no cells.
    if places.is_empty() {
        return Ok(used);
    }
    fill(&mut draft);
    let n = places.len().min(Table::CELLS);
    places[..n].copy_from_slice(&draft.cells[..n]);
    Ok(used)
}

// The used-cell count of a source text, with its table's cells in the places that are lent, up to 250 of them; the other places stay as they were. Or the
// text's first fault, and every place stays.
pub fn link_over(text: &[u8], places: &mut [i32]) -> Result<usize, Fault>
    ensures { links_over result places.new ≡ linked_over places.old (linked (read text.now)) }
{
    if TEXT < text.len() {
        return Err(Fault::LongText);
    }
    let at = skip(text, 0)?;
    match text.get(at) {
        None => Err(Fault::Unfinished),
        Some(b'(') => link_from(text, at + 1, places),
        Some(_) => Err(Fault::StrayMark),
    }
}

// Whether a source text links, or its first fault; no table is made.
pub fn accept(text: &[u8]) -> Result<(), Fault>
    ensures { result ≡ judged (read text.now) }
{
    link_over(text, &mut [])?;
    Ok(())
}

// The code table of a source text, or the text's first fault.
pub fn link(text: &[u8]) -> Result<Table, Fault>
    ensures { result ≡ linked (read text.now) }
{
    let mut table = Table::fresh();
    table.used = link_over(text, &mut table.cells)?;
    Ok(table)
}

// ── for C ───────────────────────────────────────────────────────────────────────────────────────

// 0, or the number of the text's first fault.
pub fn check(text: &[u8]) -> u32
    ensures { result ≡ link_number (linked (read text.now)) }
{
    match accept(text) {
        Ok(_) => 0,
        Err(fault) => fault.number(),
    }
}

// The same number, and `link_over` for C: a refused text gives a count of 0.
pub fn link_into(text: &[u8], cells: &mut [i32], used: &mut usize) -> u32
    ensures { links_into result used.new cells.new ≡ linked_into cells.old (read text.now) }
{
    match link_over(text, cells) {
        Ok(count) => {
            *used = count;
            0
        }
        Err(fault) => {
            *used = 0;
            fault.number()
        }
    }
}
