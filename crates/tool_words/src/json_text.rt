//! Texts of JSON.
use crate::fault::Fault;
use flash_volume::Error;
use std::io::Write;

/// A text of JSON. It is made of what always is JSON, so only memory can be missing.
pub fn json_of(text: Result<String, serde_json::Error>) -> Result<String, Fault> {
    match text {
        Ok(text) => Ok(text),
        Err(_) => Err(Fault::Volume(Error::NoMemory)),
    }
}

/// Writes a text of JSON.
pub fn write_json<O: Write>(
    text: Result<String, serde_json::Error>,
    out: &mut O,
) -> Result<(), Fault> {
    let text = json_of(text)?;
    writeln!(out, "{text}")?;
    Ok(())
}
