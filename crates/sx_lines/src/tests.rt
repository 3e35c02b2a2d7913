//! The words that several texts have, each put behind what a line holds.
use super::*;
use std::test::Fail;
use sx_base::{Class, Label, Moment, Part};
use sx_edge::Tray;
use sx_journal::JournalState;
use sx_wal::WalState;

#[test]
fn words_stand_behind_each_other(rt: HostRuntime) -> Result<(), Fail> {
    let mut line = String::new(rt.alloc());
    put_moment(Moment::Commit(12), &mut line)?;
    put_label(Label::Cell(3), &mut line)?;
    put_label(Label::BadHead, &mut line)?;
    assert_eq!(rt; line.as_str(), "12cell 3badhead");
    Ok(())
}

#[test]
fn parts_classes_and_states_have_names(rt: HostRuntime) {
    assert_eq!(rt; part_name(Part::Wal), "wal");
    assert_eq!(rt; class_name(Class::Unchecked), "unchecked");
    assert_eq!(rt; wal_state_name(WalState::OtherPageSize), "otherpagesize");
    assert_eq!(rt; journal_state_name(JournalState::Alien), "alien");
}

#[test]
fn a_piece_is_written_whole(rt: HostRuntime) -> Result<(), Fail> {
    let mut out = Tray::new(rt.alloc(), 8, 3)?;
    assert_eq!(rt; write_piece(&mut out, b"candles\n"), Ok(()));
    assert_eq!(rt; write_piece(&mut out, b"!"), Err(Unwritten::WriteFault));
    assert_eq!(rt; out.taken(), b"candles\n".as_slice());
    Ok(())
}
