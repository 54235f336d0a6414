use snap_core::NoMemory;
use snap_core::figures::{address, number, number_up_to};
use snap_core::store::Store;
use std::alloc::Global;
use std::test::Fail;

// The copy of a store with numbers at five places, of which two were changed.
fn store(alloc: Global) -> Result<Store, NoMemory> {
    let mut store = Store::new(alloc);
    store.put(1, &[9], 1)?;
    store.put(1, &[5, 7], 2)?;
    store.put(1, &[5], 3)?;
    store.put(0, &[6], 0)?;
    store.put(0, &[4], 5)?;
    store.put(0, &[2], 1)?;
    store.add(0, &[2], u64::MAX - 7)?;
    store.add(0, &[3], 1)?;
    store.add(0, &[3], u64::MAX)?;
    store.put(0, &[4], 6)?;
    store.copy()
}

// What it lists: places and numbers.
const LISTED: [(u16, &[u64], u64); 5] = [
    (0, &[2], u64::MAX - 6),
    (0, &[4], 6),
    (1, &[5], 3),
    (1, &[5, 7], 2),
    (1, &[9], 1),
];

#[test]
fn a_store_holds_what_was_put(rt: HostRuntime) -> Result<(), Fail> {
    let store = store(rt.alloc())?;
    for (var, index, value) in LISTED {
        assert_eq!(rt; store.get(var, index), value);
    }
    assert!(rt; store.get(0, &[3]) == 0 && store.get(0, &[5]) == 0);
    Ok(())
}

#[test]
fn a_listing_rises_and_leaves_out_zeros(rt: HostRuntime) -> Result<(), Fail> {
    let store = store(rt.alloc())?;
    let entries = store.entries()?;
    assert_eq!(rt; entries.len(), LISTED.len());
    for (found, (var, index, value)) in entries.iter().zip(LISTED.iter()) {
        assert!(rt; found.place.var == *var && found.place.index.items() == *index);
        assert!(rt; found.value == *value);
    }
    Ok(())
}

// Exchanges the second array and one that neither holds.
fn exchange(left: &mut Store, right: &mut Store) -> Result<(), NoMemory> {
    right.put(0, &[8], 2)?;
    right.put(1, &[5], 4)?;
    left.swap_array(1, right)?;
    left.swap_array(2, right)
}

// Places, and what the two hold there afterwards.
const EXCHANGED: [(u16, &[u64], u64, u64); 5] = [
    (0, &[4], 6, 0),
    (0, &[8], 0, 2),
    (1, &[5], 4, 3),
    (1, &[5, 7], 0, 2),
    (2, &[5], 0, 0),
];

#[test]
fn an_array_moves_between_stores(rt: HostRuntime) -> Result<(), Fail> {
    let mut left = store(rt.alloc())?;
    let mut right = Store::new(rt.alloc());
    exchange(&mut left, &mut right)?;
    for (var, index, here, there) in EXCHANGED {
        assert!(rt; left.get(var, index) == here && right.get(var, index) == there);
    }
    Ok(())
}

// Texts, and the numbers up to one that they spell.
const NUMBERS: [(u64, &[u8], Option<u64>); 4] = [
    (u64::MAX, b"018446744073709551615", Some(u64::MAX)),
    (u64::MAX, b"18446744073709551616", None),
    (9, b"9", Some(9)),
    (9, b"10", None),
];

// Texts, and the addresses that they spell.
const ADDRESSES: [(&[u8], Option<u32>); 6] = [
    (b"10.1.0.255", Some(167837951)),
    (b"10.1.0.256", None),
    (b"10.1.0", None),
    (b"10.1.0.2.5", None),
    (b"10.1..2", None),
    (b"10.1.0.0002", None),
];

#[test]
fn texts_spell_numbers(rt: HostRuntime) {
    for (most, text, wanted) in NUMBERS {
        assert!(rt; number_up_to(most, text) == wanted, "{text:?}");
        assert!(rt; most < u64::MAX || number(text) == wanted, "{text:?}");
    }
    for (text, wanted) in ADDRESSES {
        assert!(rt; address(text) == wanted, "{text:?}");
    }
}
