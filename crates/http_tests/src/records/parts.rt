//! What the tests begin with and hand over, and what they see, in words.
use crate::texts::{plain_bytes, write_plain};
use http_in::{HeadRead, head_of};
use request_api::Req;
use resty_base::{ByteLists, Bytes, Pair2};
use std::alloc::{AllocError, Global};
use uri_args::{Pair, target_of};

/// The record of a request that has this head and no host, None where it is none.
pub(crate) fn begun(alloc: Global, head: &str) -> Result<Option<Req>, AllocError> {
    let HeadRead::Whole(head, _) = head_of(alloc, head.as_bytes()) else {
        return Ok(None);
    };
    match target_of(alloc, &head.target)? {
        Some(target) => Ok(Some(Req::begin(alloc, head, target, 0))),
        None => Ok(None),
    }
}

/// The values between `|`; none for None.
pub(crate) fn values_of(alloc: Global, text: Option<&str>) -> Result<ByteLists, AllocError> {
    let mut values = Vec::new(alloc);
    if let Some(text) = text {
        for value in text.split('|') {
            values.push(plain_bytes(alloc, value)?)?;
        }
    }
    Ok(ByteLists::of(values))
}

/// So many values `1`.
pub(crate) fn ones(alloc: Global, count: usize) -> Result<ByteLists, AllocError> {
    let mut values = Vec::new(alloc);
    for _ in 0..count {
        values.push(Bytes::from_static(b"1"))?;
    }
    Ok(ByteLists::of(values))
}

/// Writes the fields, each as `NAME: VALUE;`.
pub(crate) fn write_fields(all: &mut String, fields: &[Pair2]) -> Result<(), AllocError> {
    for field in fields {
        write_plain(all, &field.name)?;
        all.push_str(": ")?;
        write_plain(all, &field.value)?;
        all.push(';')?;
    }
    Ok(())
}

/// Writes the arguments, each as `NAME=VALUE;`, or as `NAME;` without a value.
pub(crate) fn write_pairs(all: &mut String, pairs: &[Pair]) -> Result<(), AllocError> {
    for pair in pairs {
        write_plain(all, &pair.name)?;
        if let Some(value) = &pair.value {
            all.push('=')?;
            write_plain(all, value)?;
        }
        all.push(';')?;
    }
    Ok(())
}

/// Writes the texts, each before a `;`.
pub(crate) fn write_texts(all: &mut String, texts: &[Bytes]) -> Result<(), AllocError> {
    for text in texts {
        write_plain(all, text)?;
        all.push(';')?;
    }
    Ok(())
}
