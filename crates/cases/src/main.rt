// Tries the libraries on the cases in text files, whose names are the program's arguments. docs/CASES.md has the form of a case. A
// case with an answer beside it is held to that; of one without, the answer is written. Each file ends with a line that counts.
#![tactic(auto)]

mod calls;
mod compare_calls;
mod files;
mod five_field_rules;
mod five_fields_calls;
mod given;
mod image_calls;
mod ranges_calls;
mod rules_calls;
mod runs;
mod show;
mod source;
mod swaps_calls;
mod weaving_calls;

fn main(rt: HostRuntime) {
    for i in 1..host::word_count(&rt) {
        files::try_file(&rt, rt.alloc(), i);
    }
}
