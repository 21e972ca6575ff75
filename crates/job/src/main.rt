// Reads a job from standard input and writes its text to standard output.
#![tactic(auto)]

fn main() {
    job_io::answer_file(0);
}
