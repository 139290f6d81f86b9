// The calls as `hub_c` exports them to C: "takes byte slices and numbers; it returns the refusal number or 0". Each adds nothing to the
// call that it makes but the report; the answering calls have the working tables besides, whose rows nobody is told, and for a store
// without elements none of these but for the ranges: to clear them is most of what such a call costs.
#![tactic(auto)]

ghost use Rattle.std.specs.Prelude.{◌≡◌, ◌≤◌, ◌∷◌, [], take, length};
ghost use Rattle.store.specs.Accessor.{tell_found};
ghost use Rattle.store.specs.Store.{beginning_of};
ghost use Rattle.store.specs.Results.Beginning.{Nothing};
ghost use Rattle.client.specs.Read.{id_numbers};
ghost use Rattle.client.specs.Results.ReadAnswer.{Is};
ghost use Rattle.client.specs.Results.ReadPutAnswer as put_answer;
ghost use Rattle.client.specs.Ask.{WroteAs};
ghost use Rattle.client.specs.PutWritten.{put_bytes};
ghost use Rattle.hub.specs.Call.{HubTellsLength, TellsOfNothing, HubWritesAnswer};
ghost use Rattle.report.specs.Report.{numbers_bytes};
ghost use Rattle.laws.specs.Placed.{placed};
ghost use Rattle.hub.specs.Bench.{element_found, report_after, HubAsks, HubReads, HubFinds};
ghost use Rattle.hub.specs.Put.{HubPuts};
ghost use Rattle.hub.specs.Keep.{HubKeeps};
ghost use Rattle.hub.specs.BenchPut.{expected_of, put_asked, put_report_after, HubAsksPut, HubReadsPut};

use book::keep::keep;
use client::accessor::find_received;
use client::answer::{Received, read_answer};
use client::ask::write_request;
use client::put::write_put;
use client::put_answer::{ReceivedPut, read_put_answer};
use numbers::extended_guid::ExtendedGuid;
use numbers::guid::Guid;
use numbers::refusal::{Fault, Wrote, at_place};
use pages::deciding::{decide_answer, decide_request};
use pages::write::write_answer;
use puts::apply::put;
use report::{done, put_report, refuse};
use store::accessor::{Found, find_element};
use store::knowledge::SAID_NUMBERS;
use store::package::{Beginning, begin_store};
use store::table::{Elements, ID_NUMBERS, MOST_ELEMENTS, ROW_NUMBERS};

// The length where the store has no elements: the working tables of elements are empty. (Neither this and the next nor the two that write
// are one function: tables of elements, 20 kB, are not put on the stack, and not cleared, where the store has none.)
fn length_of_nothing(request: &[u8], offered: usize, report: &mut [u8]) -> u64
    ensures { TellsOfNothing request.now offered result report.old report.new }
{
    let none = [0u64; 0];
    let mut queue = [0u8; 0];
    let mut known = [0u64; SAID_NUMBERS];
    let all = Elements {
        rows: &none,
        ids: &none,
        count: 0,
    };
    match decide_request(request, all, &mut known, &mut queue, offered) {
        Err(r) => refuse(report, r),
        Ok(x) => done(report, 0, x.length),
    }
}

// The length, with tables for the elements.
fn length_of_elements(store: &[u8], request: &[u8], offered: usize, report: &mut [u8]) -> u64
    ensures { HubTellsLength store.now request.now offered result report.old report.new }
{
    let mut elements = [0u64; ROW_NUMBERS];
    let mut ids = [0u64; ID_NUMBERS];
    let mut known = [0u64; SAID_NUMBERS];
    let mut queue = [0u8; MOST_ELEMENTS];
    match decide_answer(
        store,
        request,
        offered,
        &mut elements,
        &mut ids,
        &mut known,
        &mut queue,
    ) {
        Err(r) => refuse(report, r),
        Ok(x) => done(report, 0, x.length),
    }
}

// How long the answer to a request is in an output of the offered length: 0 if there is one, else the refusal's number. The report
// tells the rest. Ruled out (proofs/WrongAnswers), of no store and no request: 0; a report of one byte that is written to.
pub fn hub_length(store: &[u8], request: &[u8], offered: u64, report: &mut [u8]) -> u64
    ensures { HubTellsLength store.now request.now offered result report.old report.new }
{
    match begin_store(store) {
        Err(r) => refuse(report, r),
        Ok(Beginning::Nothing) => length_of_nothing(request, offered as usize, report),
        Ok(Beginning::Elements) => length_of_elements(store, request, offered as usize, report),
    }
}

// The answer where the store has no elements: the working tables of elements are empty.
fn write_of_nothing(store: &[u8], request: &[u8], out: &mut [u8], report: &mut [u8]) -> u64
    requires { beginning_of store.now ≡ Nothing }
    ensures { HubWritesAnswer store.now request.now result out.old out.new report.old report.new }
{
    let none = [0u64; 0];
    let mut queue = [0u8; 0];
    let mut known = [0u64; SAID_NUMBERS];
    let all = Elements {
        rows: &none,
        ids: &none,
        count: 0,
    };
    match decide_request(request, all, &mut known, &mut queue, out.len()) {
        Err(r) => refuse(report, r),
        Ok(x) => {
            write_answer(out, store, &none, &none, &queue, x.page, &known);
            done(report, 0, x.length)
        }
    }
}

// The answer, with tables for the elements.
fn write_of_elements(store: &[u8], request: &[u8], out: &mut [u8], report: &mut [u8]) -> u64
    ensures { HubWritesAnswer store.now request.now result out.old out.new report.old report.new }
{
    let mut elements = [0u64; ROW_NUMBERS];
    let mut ids = [0u64; ID_NUMBERS];
    let mut known = [0u64; SAID_NUMBERS];
    let mut queue = [0u8; MOST_ELEMENTS];
    match decide_answer(
        store,
        request,
        out.len(),
        &mut elements,
        &mut ids,
        &mut known,
        &mut queue,
    ) {
        Err(r) => refuse(report, r),
        Ok(x) => {
            write_answer(out, store, &elements, &ids, &queue, x.page, &known);
            done(report, 0, x.length)
        }
    }
}

// One answer to one request, decided again: 0 if the output has it, else the refusal's number. The report tells the rest. Ruled out
// (proofs/WrongAnswers), of no store and no request: 0; a report of one byte that is written to.
pub fn hub_write(store: &[u8], request: &[u8], out: &mut [u8], report: &mut [u8]) -> u64
    ensures { HubWritesAnswer store.now request.now result out.old out.new report.old report.new }
{
    match begin_store(store) {
        Err(r) => refuse(report, r),
        Ok(Beginning::Nothing) => write_of_nothing(store, request, out, report),
        Ok(Beginning::Elements) => write_of_elements(store, request, out, report),
    }
}

// What is told on success by a call that has more to tell than `done`: all numbers in a report that has room for them, else the first
// three; and 0.
fn tell_all(report: &mut [u8], numbers: &[u64]) -> u64
    requires { 3 ≤ length numbers.now }
    ensures { (result ≡ 0) × (report.new ≡ placed (numbers_bytes numbers.now) (placed (numbers_bytes (take 3 numbers.now)) report.old)) }
{
    put_report(report, &numbers[..3]);
    put_report(report, numbers);
    0
}

// A put applied to a store, under the hub's GUID as two little-endian numbers: 0 if the new store and the output have what they are to
// hold, else the refusal's number. The report tells the rest. Ruled out (proofs/WrongAnswers), of no store and no put: 0; a new store
// that is written to. And of a put that enters: the new store's length in place of the answer's.
pub fn hub_put(
    store: &[u8],
    request: &[u8],
    guidlow: u64,
    guidhigh: u64,
    newstore: &mut [u8],
    out: &mut [u8],
    report: &mut [u8],
) -> u64
    ensures { HubPuts store.now request.now guidlow guidhigh result newstore.old newstore.new out.old out.new report.old report.new }
{
    let g = Guid {
        low: guidlow,
        high: guidhigh,
    };
    match put(store, request, g, newstore, out) {
        Err(r) => refuse(report, r),
        Ok((n, m)) => tell_all(report, &[0, 0, n as u64, m as u64]),
    }
}

// The request that a bench sends; the limit 2^64-1 is no constraint. Ruled out (proofs/WrongAnswers): 0 for a knowledge of one byte;
// an output with no room for the request that is written to.
pub fn hub_ask(
    id: u64,
    limit: u64,
    filters: &[u8],
    knowledge: &[u8],
    out: &mut [u8],
    report: &mut [u8],
) -> u64
    ensures { HubAsks id limit filters.now knowledge.now result out.old out.new report.old report.new }
{
    match write_request(out, id, limit, filters, knowledge) {
        Err(r) => refuse(report, r),
        Ok(n) => done(report, 0, n),
    }
}

// A storage index as numbers: whether there is one, its GUID, its number.
#[derive(Drop)]
struct IndexNumbers {
    named: u64,
    low: u64,
    high: u64,
    number: u64,
}

fn index_numbers(x: ExtendedGuid) -> IndexNumbers
    ensures { id_numbers x ≡ result.named ∷ result.low ∷ result.high ∷ result.number ∷ [] }
{
    match x {
        None => IndexNumbers {
            named: 0,
            low: 0,
            high: 0,
            number: 0,
        },
        Some((g, n)) => IndexNumbers {
            named: 1,
            low: g.low,
            high: g.high,
            number: n as u64,
        },
    }
}

// Where the knowledge to send back stands; and, in a report that has room for it, all that came.
fn tell_received(report: &mut [u8], x: Received) -> u64
    ensures { (result ≡ 0) × (report.new ≡ report_after (Is x) report.old) }
{
    let index = index_numbers(x.index);
    let all = [
        0,
        x.knowledge as u64,
        x.length as u64,
        x.id,
        u64::from(x.partial),
        x.elements as u64,
        x.count as u64,
        index.named,
        index.low,
        index.high,
        index.number,
    ];
    tell_all(report, &all)
}

// An answer, read. Ruled out (proofs/WrongAnswers), of no bytes: 0; a report of one byte that is written to.
pub fn hub_read(answer: &[u8], report: &mut [u8]) -> u64
    ensures { HubReads answer.now result report.old report.new }
{
    match read_answer(answer) {
        Err(r) => refuse(report, r),
        Ok(x) => tell_received(report, x),
    }
}

// The put, with the storage index that is expected as numbers.
fn ask_put(
    out: &mut [u8],
    id: u64,
    named: u64,
    low: u64,
    high: u64,
    number: u64,
    elements: &[u8],
) -> Wrote
    ensures { WroteAs (put_asked id named low high number elements.now (length out.old)) (put_bytes id (expected_of named low high number) elements.now) result out.old out.new }
{
    if named == 0 {
        return write_put(out, id, None, elements);
    }
    // The number of an extended GUID has 32 bits.
    let Ok(number) = u32::try_from(number) else {
        return Err(at_place(Fault::NoForm as u8, 0));
    };
    write_put(out, id, Some((Guid { low, high }, number)), elements)
}

// The put that a bench sends, of elements that stand one behind the other. It expects no storage index if `named` is 0, else the one
// with this GUID and number. Ruled out (proofs/WrongAnswers), of no elements: 14 for a number over 32 bits, which is 3 first; 3 for it
// where no storage index is named.
pub fn hub_ask_put(
    id: u64,
    named: u64,
    guid_low: u64,
    guid_high: u64,
    number: u64,
    elements: &[u8],
    out: &mut [u8],
    report: &mut [u8],
) -> u64
    ensures { HubAsksPut id named guid_low guid_high number elements.now result out.old out.new report.old report.new }
{
    match ask_put(out, id, named, guid_low, guid_high, number, elements) {
        Err(r) => refuse(report, r),
        Ok(n) => done(report, 0, n),
    }
}

// Where the knowledge stands that the answer to a put tells; and, in a report that has room for it, the id.
fn tell_handed(report: &mut [u8], x: ReceivedPut) -> u64
    ensures { (result ≡ 0) × (report.new ≡ put_report_after (put_answer.Is x) report.old) }
{
    tell_all(report, &[0, x.knowledge as u64, x.length as u64, x.id])
}

// The answer to a put, read. Ruled out (proofs/WrongAnswers), of no bytes: 0; a report of one byte that is written to.
pub fn hub_read_put(answer: &[u8], report: &mut [u8]) -> u64
    ensures { HubReadsPut answer.now result report.old report.new }
{
    match read_put_answer(answer) {
        Err(r) => refuse(report, r),
        Ok(x) => tell_handed(report, x),
    }
}

// Where the element at a position stands, in a store (kind 0) or in an answer (another kind).
fn find_in(kind: u64, bytes: &[u8], position: usize) -> Found
    ensures { tell_found result ≡ tell_found (element_found kind bytes.now position) }
{
    if kind == 0 {
        return find_element(bytes, position);
    }
    find_received(bytes, position)
}

// One element by its position, in a store (kind 0) or in an answer (another kind). Ruled out (proofs/WrongAnswers), of no bytes: an
// element of the store; 9 for the answer, whose own fault comes first.
pub fn hub_element(kind: u64, bytes: &[u8], position: u64, report: &mut [u8]) -> u64
    ensures { HubFinds kind bytes.now position result report.old report.new }
{
    match find_in(kind, bytes, position as usize) {
        Err(r) => refuse(report, r),
        Ok((at, n)) => done(report, at, n),
    }
}

// An answer kept in a book: 0 if the new book's buffer has it, else the refusal's number. The report tells the rest. Ruled out
// (proofs/WrongAnswers), of no book and no answer: 0; a new book that is written to. And of an answer that is kept: the book's length in
// place of the new one's.
pub fn hub_keep(book: &[u8], answer: &[u8], newbook: &mut [u8], report: &mut [u8]) -> u64
    ensures { HubKeeps book.now answer.now result newbook.old newbook.new report.old report.new }
{
    match keep(book, answer, newbook) {
        Err(r) => refuse(report, r),
        Ok(n) => done(report, 0, n),
    }
}
