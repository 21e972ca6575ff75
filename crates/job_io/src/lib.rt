// The job program over an open file.
#![tactic(auto)]

use job_answer::{OUTPUT_SIZE, answer_input};

// Reads a job from an open file and writes its text to standard output. Of a longer file only the first bytes are read,
// as many as the buffer holds: the text is the same.
pub fn answer_file(fd: i32) {
    let mut input = io::buffer();
    let count = io::read_full(fd, &mut input);
    let mut out = [0u8; OUTPUT_SIZE];
    let printed = answer_input(&input, count, &mut out);
    if let Ok(size) = printed {
        io::write_all(1, &out[..size]);
    }
}
