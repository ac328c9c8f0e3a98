//! A segment in a file.

use crate::texts::{batch, beginning};
use lf_journal::{Journal, open};
use lf_journal_file::{Unknown, open_file};
use lf_journal_text::read_segment;
use std::fs;
use std::test::Fail;

const FOLDER: &str = "lf_tests_journal";

const PATH: &str = "lf_tests_journal/1.journal";

#[test]
fn a_file_is_opened_again(rt: HostRuntime) -> Result<(), Fail> {
    let alloc = rt.alloc();
    let _ = fs::remove_dir_all(&rt, FOLDER);
    fs::create_dir(&rt, FOLDER)?;
    let mut file = open_file(&rt, FOLDER, PATH, Unknown)?;
    let opened = open(alloc, &mut file)?;
    let mut journal = Journal {
        disk: file,
        end: opened.text.len(),
        len: opened.len,
    };
    let first = beginning(alloc)?;
    assert!(rt; journal.end < 1_000_000);
    assert!(rt; first.len() < 1_000_000);
    journal.put(&first)?;
    let second = batch(alloc)?;
    assert!(rt; journal.end < 1_000_000);
    assert!(rt; second.len() < 1_000_000);
    journal.put(&second)?;
    drop(journal);
    let mut again = open_file(&rt, FOLDER, PATH, Unknown)?;
    let opened = open(alloc, &mut again)?;
    assert_eq!(rt; read_segment(alloc, &opened.text)?.len(), 2);
    fs::remove_dir_all(&rt, FOLDER)?;
    Ok(())
}
