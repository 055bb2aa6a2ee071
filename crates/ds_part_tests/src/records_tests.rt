//! Records of transactions, found and changed by their numbers, whether these rise or not.
use ds_base::{Copies, Stamp, TxnNo};
use ds_rule::{RecordStatus, Records, TxnRecord};
use std::alloc::Global;
use std::test::Fail;

/// Pending records of these numbers.
fn pending(alloc: Global, numbers: &[u32]) -> Result<Records, Fail> {
    let mut records = Records::new(alloc);
    for number in numbers {
        records.push(
            alloc,
            TxnRecord {
                txn: TxnNo(*number),
                stamp: Stamp(10),
                epoch: 0,
                status: RecordStatus::Pending,
            },
        )?;
    }
    Ok(records)
}

fn letter(status: &RecordStatus) -> u8 {
    match status {
        RecordStatus::Pending => b'p',
        RecordStatus::Committed => b'c',
        RecordStatus::Aborted => b'a',
        RecordStatus::Staging(_) => b's',
    }
}

/// Whether the records, in order, have statuses that begin with these letters.
fn stand(records: &Records, letters: &[u8]) -> bool {
    let mut left = letters;
    for record in records.as_slice() {
        match left.split_first() {
            Some((first, more)) if *first == letter(&record.status) => left = more,
            _ => return false,
        }
    }
    left.is_empty()
}

fn has(records: &Records, number: u32) -> bool {
    match records.find(TxnNo(number)) {
        Some(record) => record.txn.0 == number,
        None => false,
    }
}

#[test]
fn among_rising_numbers_one_is_found_and_changed(rt: HostRuntime) -> Result<(), Fail> {
    let mut records = pending(rt.alloc(), &[1, 3, 4])?;
    assert!(rt; has(&records, 1) && has(&records, 3) && has(&records, 4));
    assert!(rt; !has(&records, 0) && !has(&records, 2) && !has(&records, 5));
    records.set_status(TxnNo(2), RecordStatus::Aborted);
    records.set_status(TxnNo(3), RecordStatus::Committed);
    assert!(rt; stand(&records, b"pcp"));
    Ok(())
}

#[test]
fn among_others_the_first_is_found_and_changed(rt: HostRuntime) -> Result<(), Fail> {
    let mut records = pending(rt.alloc(), &[4, 3, 3])?;
    assert!(rt; has(&records, 4) && has(&records, 3) && !has(&records, 5));
    records.set_status(TxnNo(3), RecordStatus::Committed);
    assert!(rt; stand(&records, b"pcp"));
    Ok(())
}

#[test]
fn the_last_gets_a_status_and_a_copy_is_the_same(rt: HostRuntime) -> Result<(), Fail> {
    let mut records = pending(rt.alloc(), &[1, 2])?;
    records.set_last_status(RecordStatus::Aborted);
    let copy = records.copy(rt.alloc())?;
    assert!(rt; stand(&copy, b"pa") && has(&copy, 2) && copy.len() == 2);
    assert!(rt; copy.get(2).is_none());
    assert!(rt; matches!(copy.last(), Some(record) if record.txn.0 == 2));
    Ok(())
}
