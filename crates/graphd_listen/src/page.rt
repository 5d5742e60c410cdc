//! The page of metrics, in Prometheus' text format.
use crate::counts::{BUCKETS, Counts, REASONS};
use crate::lines::Seconds;
use crate::log::Losses;
use std::alloc::{AllocError, Global};
use std::fmt::Write;

/// Begins a metric.
fn begin(page: &mut String, name: &str, kind: &str, help: &str) -> Result<(), AllocError> {
    write!(page, "# HELP {name} {help}\n# TYPE {name} {kind}\n")
}

/// A metric of one number.
fn number(
    page: &mut String,
    name: &str,
    kind: &str,
    help: &str,
    value: u64,
) -> Result<(), AllocError> {
    begin(page, name, kind, help)?;
    write!(page, "{name} {value}\n")
}

fn connections(page: &mut String, counts: &Counts) -> Result<(), AllocError> {
    let help = "connections that there are";
    number(
        page,
        "graphd_connections",
        "gauge",
        help,
        counts.connections(),
    )?;
    let help = "connections that were accepted";
    number(
        page,
        "graphd_connections_accepted_total",
        "counter",
        help,
        counts.accepted,
    )?;
    let help = "times that a client was there and could not be accepted";
    number(
        page,
        "graphd_not_accepted_total",
        "counter",
        help,
        counts.not_accepted,
    )?;
    let name = "graphd_connections_closed_total";
    begin(
        page,
        name,
        "counter",
        "connections that were closed, by why",
    )?;
    for (word, closed) in REASONS.iter().zip(counts.closed.iter()) {
        write!(page, "{name}{{why=\"{word}\"}} {closed}\n")?;
    }
    Ok(())
}

fn bytes(page: &mut String, counts: &Counts) -> Result<(), AllocError> {
    let help = "bytes from clients";
    number(
        page,
        "graphd_received_bytes_total",
        "counter",
        help,
        counts.received,
    )?;
    let help = "bytes to clients";
    number(
        page,
        "graphd_sent_bytes_total",
        "counter",
        help,
        counts.sent,
    )
}

/// How long requests took, in buckets of which each has those of the ones before too.
fn seconds(page: &mut String, counts: &Counts) -> Result<(), AllocError> {
    let name = "graphd_request_seconds";
    begin(page, name, "histogram", "seconds that requests took")?;
    let mut below = 0u64;
    for (most, found) in BUCKETS.iter().zip(counts.buckets.iter()) {
        below = below.saturating_add(*found);
        let limit = Seconds(*most);
        write!(page, "{name}_bucket{{le=\"{limit}\"}} {below}\n")?;
    }
    let all = counts.requests;
    let sum = Seconds(counts.micros);
    write!(
        page,
        "{name}_bucket{{le=\"+Inf\"}} {all}\n{name}_sum {sum}\n{name}_count {all}\n"
    )
}

fn refusals(page: &mut String, counts: &Counts) -> Result<(), AllocError> {
    let name = "graphd_refusals_total";
    begin(page, name, "counter", "requests that were refused, by code")?;
    for (code, found) in counts.refusals.iter().enumerate() {
        if *found > 0 {
            write!(page, "{name}{{code=\"{code}\"}} {found}\n")?;
        }
    }
    Ok(())
}

fn tenant_requests(page: &mut String, counts: &Counts) -> Result<(), AllocError> {
    let name = "graphd_tenant_requests_total";
    begin(
        page,
        name,
        "counter",
        "requests, by the place of the tenant",
    )?;
    for (place, tenant) in counts.tenants.iter().enumerate() {
        let found = tenant.requests;
        write!(page, "{name}{{tenant=\"{place}\"}} {found}\n")?;
    }
    Ok(())
}

fn tenant_refusals(page: &mut String, counts: &Counts) -> Result<(), AllocError> {
    let name = "graphd_tenant_refusals_total";
    begin(
        page,
        name,
        "counter",
        "requests that were refused, by the place of the tenant",
    )?;
    for (place, tenant) in counts.tenants.iter().enumerate() {
        let found = tenant.refusals;
        write!(page, "{name}{{tenant=\"{place}\"}} {found}\n")?;
    }
    Ok(())
}

fn tenant_seconds(page: &mut String, counts: &Counts) -> Result<(), AllocError> {
    let name = "graphd_tenant_seconds_total";
    begin(
        page,
        name,
        "counter",
        "seconds that requests took, by the place of the tenant",
    )?;
    for (place, tenant) in counts.tenants.iter().enumerate() {
        let found = Seconds(tenant.micros);
        write!(page, "{name}{{tenant=\"{place}\"}} {found}\n")?;
    }
    Ok(())
}

fn rollbacks(page: &mut String, counts: &Counts) -> Result<(), AllocError> {
    let help = "transactions that were rolled back, or tried to, since their connections were gone";
    number(
        page,
        "graphd_rollbacks_total",
        "counter",
        help,
        counts.rollbacks,
    )
}

fn losses(page: &mut String, lost: Losses) -> Result<(), AllocError> {
    let help = "lines of the log that were dropped";
    number(
        page,
        "graphd_log_lines_dropped_total",
        "counter",
        help,
        lost.lines,
    )?;
    let help = "writes of the log that failed";
    number(
        page,
        "graphd_log_writes_failed_total",
        "counter",
        help,
        lost.writes,
    )
}

/// The whole page.
pub(crate) fn page_of(alloc: Global, counts: &Counts, lost: Losses) -> Result<String, AllocError> {
    let mut page = String::new(alloc);
    connections(&mut page, counts)?;
    bytes(&mut page, counts)?;
    seconds(&mut page, counts)?;
    refusals(&mut page, counts)?;
    tenant_requests(&mut page, counts)?;
    tenant_refusals(&mut page, counts)?;
    tenant_seconds(&mut page, counts)?;
    rollbacks(&mut page, counts)?;
    losses(&mut page, lost)?;
    Ok(page)
}
