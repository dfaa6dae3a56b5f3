// How far the reading of frames has come.

// Whether every line so far was a frame, and how many numbers each list has.
#[derive(Clone, Copy)]
pub struct Reading {
    pub ok: bool,
    pub sections: usize,
    pub bytes: usize,
    pub outcomes: usize,
    pub functions: usize,
    pub objects: usize,
    pub skips: usize,
    pub entry: usize,
}
