// A range of serial numbers.

// The GUID's sixteen bytes as two numbers, the first byte highest (bytes 0 to 7, then 8 to 15), so that GUIDs are in order
// as their bytes are; the numbers from `from` to `to`, both in it.
#[derive(Clone, Copy)]
pub struct Range {
    pub upper: u64,
    pub lower: u64,
    pub from: u64,
    pub to: u64,
}
