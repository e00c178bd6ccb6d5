//! Fields of each kind, written and read back.
use ckr_base::{CheckId, Code, DsName, Name8};
use ckr_fields::{
    Fields, ReadError, put_byte, put_code, put_flag, put_four_bytes, put_record_bytes,
    put_short_text, put_two_bytes,
};
use std::alloc::{AllocError, Global};
use std::test::Fail;

fn numbers(alloc: Global) -> Result<Vec<u8>, AllocError> {
    let mut out = Vec::new(alloc);
    out.reserve(8)?;
    put_byte(&mut out, 7);
    put_two_bytes(&mut out, 0x0102);
    put_four_bytes(&mut out, 0x0304_0506);
    Ok(out)
}

fn are_numbers(fields: &mut Fields) -> bool {
    fields.byte() == Ok(7)
        && fields.two_bytes() == Ok(0x0102)
        && fields.four_bytes() == Ok(0x0304_0506)
}

fn names(alloc: Global) -> Result<Vec<u8>, AllocError> {
    let mut out = Vec::new(alloc);
    out.reserve(16)?;
    put_short_text(&mut out, b"STEP1");
    put_short_text(&mut out, b"IN.A");
    put_byte(&mut out, 0);
    Ok(out)
}

fn are_names(fields: &mut Fields) -> bool {
    fields.name8().ok() == Name8::read(b"STEP1")
        && fields.optional_ds_name().ok() == Some(DsName::read(b"IN.A"))
        && fields.optional_check_id().ok() == Some(CheckId::read(b""))
}

fn others(alloc: Global) -> Result<Vec<u8>, AllocError> {
    let mut out = Vec::new(alloc);
    out.reserve(16)?;
    put_record_bytes(&mut out, b"ALPHA");
    put_flag(&mut out, true);
    put_code(&mut out, Code::User(4095));
    Ok(out)
}

fn is_record(fields: &mut Fields, bytes: &[u8]) -> bool {
    match fields.record_bytes() {
        Ok(record) => record.bytes() == bytes,
        Err(_) => false,
    }
}

fn are_others(fields: &mut Fields) -> bool {
    is_record(fields, b"ALPHA")
        && fields.flag() == Ok(true)
        && fields.code() == Ok(Code::User(4095))
}

/// Nothing is left to be read.
fn is_finished(fields: &mut Fields) -> bool {
    fields.finish() == Ok(()) && fields.byte() == Err(ReadError::Wrong(0))
}

/// The fields of each kind, one behind another.
fn written(alloc: Global) -> Result<Vec<u8>, AllocError> {
    let mut out = numbers(alloc)?;
    out.extend_from_slice(&names(alloc)?)?;
    out.extend_from_slice(&others(alloc)?)?;
    Ok(out)
}

#[test]
fn what_is_written_is_read(rt: HostRuntime) -> Result<(), Fail> {
    let out = written(rt.alloc())?;
    let mut fields = Fields::new(&out);
    assert!(rt; are_numbers(&mut fields));
    assert!(rt; are_names(&mut fields));
    assert!(rt; are_others(&mut fields));
    assert!(rt; is_finished(&mut fields));
    Ok(())
}
