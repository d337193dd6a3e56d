// What it means to mend a stream that the old gateway wrote, and what is answered (document 02 (x)); the theorems about it. No function of its own.
#![tactic(auto)]

// What was changed: records moved, copies dropped, types and lengths respelled in the records kept, bytes cut off. It is laid out as in C, since C is handed it too.
#[repr(C)]
#[derive(Clone, Copy)]
pub struct Changes {
    pub moved: usize,
    pub dropped: usize,
    pub respelled: usize,
    pub cut: usize,
}

// What became of a stream that is mended: so many bytes stand at the front of the output.
#[derive(Clone, Copy)]
pub struct Mending {
    pub size: usize,
    pub changes: Changes,
}
