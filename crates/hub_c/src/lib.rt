// The nine calls, as the archive for C exports them under their names: each is the call of `hub` of the same name, with the same
// promises, and adds nothing. A slice is two arguments of C, a pointer and a length; `include/hub.h` declares all of it.
#![tactic(auto)]

ghost use Rattle.hub.specs.Call.{HubTellsLength, HubWritesAnswer};
ghost use Rattle.hub.specs.Bench.{HubAsks, HubFinds, HubReads};
ghost use Rattle.hub.specs.BenchPut.{HubAsksPut, HubReadsPut};
ghost use Rattle.hub.specs.Put.{HubPuts};
ghost use Rattle.hub.specs.Keep.{HubKeeps};

// How long the answer to a request is in an output of the offered length.
#[unsafe(no_mangle)]
pub extern "C" fn hub_length(store: &[u8], request: &[u8], offered: u64, report: &mut [u8]) -> u64
    ensures { HubTellsLength store.now request.now offered result report.old report.new }
{
    hub::hub_length(store, request, offered, report)
}

// One answer to one request.
#[unsafe(no_mangle)]
pub extern "C" fn hub_write(store: &[u8], request: &[u8], out: &mut [u8], report: &mut [u8]) -> u64
    ensures { HubWritesAnswer store.now request.now result out.old out.new report.old report.new }
{
    hub::hub_write(store, request, out, report)
}

// A put applied to a store, under the hub's GUID as two little-endian numbers.
#[unsafe(no_mangle)]
pub extern "C" fn hub_put(
    store: &[u8],
    request: &[u8],
    guidlow: u64,
    guidhigh: u64,
    newstore: &mut [u8],
    out: &mut [u8],
    report: &mut [u8],
) -> u64
    ensures { HubPuts store.now request.now guidlow guidhigh result newstore.old newstore.new out.old out.new report.old report.new }
{
    hub::hub_put(store, request, guidlow, guidhigh, newstore, out, report)
}

// The request that a bench sends; the limit 2^64-1 is no constraint.
#[unsafe(no_mangle)]
pub extern "C" fn hub_ask(
    id: u64,
    limit: u64,
    filters: &[u8],
    knowledge: &[u8],
    out: &mut [u8],
    report: &mut [u8],
) -> u64
    ensures { HubAsks id limit filters.now knowledge.now result out.old out.new report.old report.new }
{
    hub::hub_ask(id, limit, filters, knowledge, out, report)
}

// An answer, read.
#[unsafe(no_mangle)]
pub extern "C" fn hub_read(answer: &[u8], report: &mut [u8]) -> u64
    ensures { HubReads answer.now result report.old report.new }
{
    hub::hub_read(answer, report)
}

// The put that a bench sends, of elements that stand one behind the other.
#[unsafe(no_mangle)]
pub extern "C" fn hub_ask_put(
    id: u64,
    named: u64,
    guid_low: u64,
    guid_high: u64,
    number: u64,
    elements: &[u8],
    out: &mut [u8],
    report: &mut [u8],
) -> u64
    ensures { HubAsksPut id named guid_low guid_high number elements.now result out.old out.new report.old report.new }
{
    hub::hub_ask_put(
        id, named, guid_low, guid_high, number, elements, out, report,
    )
}

// The answer to a put, read.
#[unsafe(no_mangle)]
pub extern "C" fn hub_read_put(answer: &[u8], report: &mut [u8]) -> u64
    ensures { HubReadsPut answer.now result report.old report.new }
{
    hub::hub_read_put(answer, report)
}

// One element by its position, in a store (kind 0) or in an answer (another kind).
#[unsafe(no_mangle)]
pub extern "C" fn hub_element(kind: u64, bytes: &[u8], position: u64, report: &mut [u8]) -> u64
    ensures { HubFinds kind bytes.now position result report.old report.new }
{
    hub::hub_element(kind, bytes, position, report)
}

// An answer kept in a book.
#[unsafe(no_mangle)]
pub extern "C" fn hub_keep(book: &[u8], answer: &[u8], newbook: &mut [u8], report: &mut [u8]) -> u64
    ensures { HubKeeps book.now answer.now result newbook.old newbook.new report.old report.new }
{
    hub::hub_keep(book, answer, newbook, report)
}
