//! What of programs isn't a script and what it prints: words, folders and faults. Scripts are played by `golden_files`.

mod disks;
mod faults;
mod folders;
mod loads;
mod looks;
mod sites;
mod told_folders;
mod told_words;
mod words;
