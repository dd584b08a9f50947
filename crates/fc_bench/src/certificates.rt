//! Measures reading a certificate, and finding its keys.

ghost use Rattle.std.specs.Prelude.{◌≤◌, length};

use fc_cert::{Certificate, LONGEST_CERTIFICATE};
use std::alloc::Global;
use std::time::Instant;
use std::{fs, io};

/// Reads the certificate in a file so often, and finds each of its keys so often, in an order that jumps; prints how long
/// each record and each key took.
pub fn bench_certificate(rt: &HostRuntime, path: &str, rounds: u32) -> io::Result<()> {
    let bytes = fs::read(rt, path)?;
    if bytes.len() > LONGEST_CERTIFICATE {
        return println!(rt; "too long");
    }
    let began = Instant::now(rt)?;
    let records = read_often(rt.alloc(), bytes.as_slice(), rounds);
    let reading = began.elapsed(rt)?.as_nanos();
    let certificate = match Certificate::read(rt.alloc(), bytes.as_slice()) {
        Ok(certificate) => certificate,
        Err(fault) => return println!(rt; "{fault}"),
    };
    let began = Instant::now(rt)?;
    let found = find_often(&certificate, rounds);
    let finding = began.elapsed(rt)?.as_nanos();
    println!(rt; "records {}", certificate.len())?;
    tell(rt, "read", reading, records)?;
    tell(rt, "find", finding, found)?;
    tell_peak(rt)
}

/// Prints the line with the peak of resident memory, where the system tells it.
pub fn tell_peak(rt: &HostRuntime) -> io::Result<()> {
    let status = fs::read_to_string(rt, "/proc/self/status")?;
    for line in status.lines() {
        if line.starts_with("VmHWM:") {
            println!(rt; "{line}")?;
        }
    }
    Ok(())
}

/// Reads the bytes so often; how many records that were.
fn read_often(alloc: Global, bytes: &[u8], rounds: u32) -> u64
    requires limit { length bytes.now ≤ LONGEST_CERTIFICATE }
{
    let mut records = 0u64;
    for _ in 0..rounds {
        if let Ok(certificate) = Certificate::read(alloc, bytes) {
            records = records.saturating_add(u64::from(certificate.len()));
        }
    }
    records
}

/// Finds each key so often; how many were found.
fn find_often(certificate: &Certificate<'_>, rounds: u32) -> u64 {
    let mut found = 0u64;
    for _ in 0..rounds {
        found = found.saturating_add(find_each(certificate));
    }
    found
}

/// Finds each key once, each far from the one before it.
fn find_each(certificate: &Certificate<'_>) -> u64 {
    let count = u64::from(certificate.len());
    let mut found = 0u64;
    for i in 0..count {
        let (key, _cost) = certificate.record_at((i * 7919 % count) as u32);
        if certificate.find(key).is_some() {
            found = found.saturating_add(1);
        }
    }
    found
}

/// Prints tenths of nanoseconds a call.
fn tell(rt: &HostRuntime, name: &str, nanos: u128, calls: u64) -> io::Result<()> {
    let nanos = u64::try_from(nanos).unwrap_or(u64::MAX);
    let tenths = nanos.saturating_mul(10) / calls.max(1);
    println!(rt; "{name} {}.{} ns", tenths / 10, tenths % 10)
}
