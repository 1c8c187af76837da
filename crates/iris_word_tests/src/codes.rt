//! Codes, keys, tags and priorities: vectors from the standards, and values computed apart.

use iris_mac::{Keys, hmac, passes, priority, tag};
use iris_name::FileId;
use sha2::{Digest, Sha256};
use std::alloc::Global;
use std::test::Fail;

// The hexadecimal digits of a hash.
fn digits(alloc: Global, hash: &[u8; 32]) -> Result<String, Fail> {
    Ok(hex::encode(alloc, hash.as_slice())?)
}

// A hash that isn't FIPS 180-4's SHA-256.
#[test]
fn hashes_as_the_standard(rt: HostRuntime) -> Result<(), Fail> {
    let abc: [u8; 32] = Sha256::digest(b"abc");
    assert_eq!(rt;
        digits(rt.alloc(), &abc)?.as_str(),
        "ba7816bf8f01cfea414140de5dae2223b00361a396177a9cb410ff61f20015ad"
    );
    Ok(())
}

// RFC 4231, cases 1, 2 and 6, and keys round a hash's block of 64 bytes by Python's hmac: a key that is hashed or padded where
// it isn't to be, or pads that are mixed up.
#[test]
fn meets_the_standards_vectors(rt: HostRuntime) -> Result<(), Fail> {
    let long = b"Test Using Larger Than Block-Size Key - Hash Key First".as_slice();
    let table = [
        (
            [0x0b; 20].as_slice(),
            b"Hi There".as_slice(),
            "b0344c61d8db38535ca8afceaf0bf12b881dc200c9833da726e9376c2e32cff7",
        ),
        (
            b"Jefe".as_slice(),
            b"what do ya want for nothing?".as_slice(),
            "5bdcc146bf60754e6a042426089575c75a003f089d2739839dec58b964ec3843",
        ),
        (
            [0xaa; 131].as_slice(),
            long,
            "60e431591ee0b67f0d8a26aacbf5b77f8e0bc6213728c5140546040f0ee37f54",
        ),
        (
            [0xaa; 63].as_slice(),
            b"Hi There".as_slice(),
            "b176405584df87db508aee7e8d9ef11482cca92efc74d994f593a7e21207cef1",
        ),
        (
            [0xaa; 64].as_slice(),
            b"Hi There".as_slice(),
            "ebef34e13d0a0fe04593d043bc7a865106db0604211d404c18206d862e5d7852",
        ),
        (
            [0xaa; 65].as_slice(),
            b"Hi There".as_slice(),
            "00af6c42340b99e2e1d9a1cdf1547be431fe2e9bab3215c68d013ba858891927",
        ),
    ];
    for (key, text, want) in table {
        let code = hmac(key, text);
        assert_eq!(rt; digits(rt.alloc(), &code)?.as_str(), want);
    }
    Ok(())
}

// A key that is made of another word.
#[test]
fn meets_the_keys_of_zeros(rt: HostRuntime) -> Result<(), Fail> {
    let keys = Keys::of(&[0; 32]);
    let table = [
        (
            keys.block,
            "92cffc684a4dd8a694c5e1515e4d18a0737a09ec963775d6156eb7fef2d57d87",
        ),
        (
            keys.order,
            "956877ac1d374b62d305d4f2b794d9b36b90a5507b71eff26beec61e559a9966",
        ),
        (
            keys.layout,
            "41a6e0020f6dbebc6c4fa5686afa1df5d9855e357eda21597a76438997918a6d",
        ),
        (
            keys.audit,
            "5dd09832cdba5fa1ec6451aa1119c17c8abc18ee7067a307bd35c0a47c4f3444",
        ),
    ];
    for (key, want) in table {
        assert_eq!(rt; digits(rt.alloc(), &key)?.as_str(), want);
    }
    Ok(())
}

// The record of a block of zeros of file 2, at place 0 and under version 1.
fn record_of_zeros(alloc: Global) -> Result<Vec<u8>, Fail> {
    let block = [0u8; 4096];
    let mac = tag(&Keys::of(&[0; 32]), FileId(2), 0, 1, &block);
    let mut record = block.to_vec(alloc)?;
    record.extend_from_slice(&mac)?;
    Ok(record)
}

// A tag over another text.
#[test]
fn tags_a_block_of_zeros(rt: HostRuntime) -> Result<(), Fail> {
    let mac = tag(&Keys::of(&[0; 32]), FileId(2), 0, 1, &[0u8; 4096]);
    assert_eq!(rt;
        digits(rt.alloc(), &mac)?.as_str(),
        "638ed94c14c58d828b95e30ea8871d6ca62ee84aae91ff6a2158027d97326529"
    );
    Ok(())
}

// A record that passes for another file, place or version, with a byte more, or with a bit turned at either end of its tag.
#[test]
fn passes_one_record_alone(rt: HostRuntime) -> Result<(), Fail> {
    let keys = Keys::of(&[0; 32]);
    let mut record = record_of_zeros(rt.alloc())?;
    let table = [
        (2, 0, 1, true),
        (2, 0, 2, false),
        (2, 1, 1, false),
        (3, 0, 1, false),
    ];
    for (file, place, version, want) in table {
        let got = passes(&keys, FileId(file), place, version, record.as_slice());
        assert!(rt; got == want, "{file} {place} {version}");
    }
    record.push(0)?;
    assert!(rt;
        !passes(&keys, FileId(2), 0, 1, record.as_slice()),
        "a byte more"
    );
    Ok(())
}

// A comparison that leaves bytes of the tag out.
#[test]
fn compares_the_whole_tag(rt: HostRuntime) -> Result<(), Fail> {
    let keys = Keys::of(&[0; 32]);
    for at in [0, 4095, 4096, 4111, 4127] {
        let mut record = record_of_zeros(rt.alloc())?;
        assert_eq!(rt; record.len(), 4128);
        record[at] ^= 1;
        assert!(rt;
            !passes(&keys, FileId(2), 0, 1, record.as_slice()),
            "byte {at}"
        );
    }
    Ok(())
}

// A priority of other bytes of the code.
#[test]
fn orders_the_first_ids(rt: HostRuntime) {
    let keys = Keys::of(&[0; 32]);
    let table = [
        (2, 7568322789430037119),
        (3, 16971090587952730181),
        (4, 14657765134739003598),
    ];
    for (id, want) in table {
        assert_eq!(rt; priority(&keys, FileId(id)), want, "file {id}");
    }
}
