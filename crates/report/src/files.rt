// Records on disk.
use crate::failure::Failure;
use std::fs;
use std::io::Write;

// The bytes of the file, or four empty blocks where there is none.
pub(crate) fn read_record<'a>(rt: &HostRuntime, path: &'a str) -> Result<Vec<u8>, Failure<'a>> {
    if fs::exists(rt, path)? {
        return Ok(fs::read(rt, path)?);
    }
    Ok(vec![in rt.alloc(); 0u8; 2048]?)
}

// Writes the bytes beside the file, and then moves them over it: whatever happens, one of the two is there, whole.
pub(crate) fn save<'a>(rt: &HostRuntime, path: &'a str, bytes: &[u8]) -> Result<(), Failure<'a>> {
    let beside = format!(in rt.alloc(); "{path}.new")?;
    let mut file = fs::create(rt, beside.as_str())?;
    file.write_all(bytes)?;
    file.sync_all()?;
    fs::rename(rt, beside.as_str(), path)?;
    Ok(())
}
