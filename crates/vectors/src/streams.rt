// Record streams in BOLT 1's test namespaces n1 and n2 (document 01, "The table of known types").
use crate::digits;
use answer::Refusal;
use stream::Counts;
use words::Hex;

// Rows of namespace, type, form and parameter.
const TABLE: [u64; 24] = [
    // n1, tlv1: an integer of at most 8 bytes.
    1, 1, 2, 8,
    // n1, tlv2: 8 bytes.
    1, 2, 1, 8,
    // n1, tlv3: a point, then 16 bytes.
    1, 3, 4, 16,
    // n1, tlv4: 2 bytes.
    1, 254, 1, 2,
    // n2, tlv1: an integer of at most 8 bytes.
    2, 0, 2, 8,
    // n2, tlv2: an integer of at most 4 bytes.
    2, 11, 2, 4,
];

// `1 BYTES` and `2 BYTES`, a stream in n1 and n2: what reading gives, the value of the first record where one is known, and whether the stream is written
// back to the same bytes.
pub(crate) fn read(out: &impl Print, namespace: u64, text: &[u8]) {
    let mut bytes = [0u8; 512];
    let n = digits::bytes(text, &mut bytes);
    describe(out, namespace, &bytes[..n]);
}

fn describe(out: &impl Print, namespace: u64, stream: &[u8]) {
    let mut index = [0u64; 8];
    match stream_index::read(&TABLE, namespace, stream, &mut index) {
        Err(r) => words::refused(out, r),
        Ok(Counts { records, known }) => {
            let _ = print!(out; "records {records} known {known}");
            if 0 < known {
                let value = Hex(stream_index::value(&TABLE, namespace, stream, index[0]));
                let _ = print!(out; " value {value}");
            }
            print_back(out, namespace, stream);
        }
    }
}

// Whether a stream is read and written back to the same bytes.
fn print_back(out: &impl Print, namespace: u64, stream: &[u8]) {
    let mut index = [0u64; 8];
    let mut triples = [0u64; 6];
    let mut written = [0u8; 512];
    let writing = stream_writer::write_back(
        &TABLE,
        namespace,
        stream,
        &mut index,
        &mut triples,
        &mut written,
    );
    print_same(out, writing, &written, stream);
}

// Whether what was written is what was read.
pub(crate) fn print_same(
    out: &impl Print,
    writing: Result<usize, Refusal>,
    written: &[u8],
    read: &[u8],
) {
    match writing {
        Err(r) => words::refused(out, r),
        Ok(n) => {
            if words::front(written, n) == read {
                words::print(out, b", written back");
            }
        }
    }
}
