//! What a load measured, as it is printed.

use crate::latencies::Latencies;
use crate::tally::Tally;
use cc_command_line::LoadOrder;
use cc_messages::Refusal;
use serde::{Described, Serialize, Serializer};
use std::alloc::{AllocError, Global};
use std::fmt;

// How long the bar of the fullest bucket is.
const WIDEST: u64 = 40;

/// What a load measured. Times are in microseconds.
#[derive(Drop, Serialize)]
pub struct Report {
    /// `store` or `collect`.
    pub operation: &'static str,
    pub clients: u64,
    /// How many operations were answered, in which time, and how many a second.
    pub answered: u64,
    pub elapsed_us: u64,
    pub per_second: u64,
    /// Within which time half of them were answered, 99 of a hundred, and all.
    pub p50_us: u64,
    pub p99_us: u64,
    pub worst_us: u64,
    pub buckets: Vec<Bucket>,
    /// How many requests were refused as the node was too busy, and were asked again.
    pub again: u64,
    /// How many connections broke, couldn't be made, or brought no last answer.
    pub lost: u64,
    /// How many clients ended before the time was over, and why one of them was refused.
    pub ended: u64,
    pub refused: Option<PrintedRefusal>,
    /// How many of them found that another client uses their session.
    pub in_use: u64,
}

/// Why a client was refused: the refusal's number and name, and what it carries.
#[derive(Clone, Copy)]
pub struct PrintedRefusal(pub Refusal);

impl Described for PrintedRefusal {}

impl Serialize for PrintedRefusal {
    fn serialize<S: Serializer>(&self, out: &mut S) -> Result<(), S::Error> {
        out.collect_str(&self.0)
    }
}

/// How many operations took up to so many microseconds, and more than half of that.
#[derive(Clone, Copy, Serialize)]
pub struct Bucket {
    pub up_to_us: u64,
    pub count: u64,
}

impl Report {
    /// What the clients of an order counted in so many microseconds.
    pub fn of(
        alloc: Global,
        order: &LoadOrder,
        elapsed_us: u64,
        tally: &Tally,
    ) -> Result<Self, AllocError> {
        let latencies = &tally.latencies;
        let answered = latencies.count();
        let buckets = buckets_of(alloc, latencies)?;
        Ok(Report {
            operation: order.operation.name(),
            clients: order.clients,
            answered,
            elapsed_us,
            per_second: per_second(answered, elapsed_us),
            p50_us: latencies.quantile(50),
            p99_us: latencies.quantile(99),
            worst_us: latencies.worst(),
            buckets,
            again: tally.again,
            lost: tally.lost,
            ended: tally.ended,
            refused: tally.refusal.map(PrintedRefusal),
            in_use: tally.in_use,
        })
    }

    /// The report as a JSON object. The only error is a refused growth.
    pub fn json(&self, alloc: Global) -> Result<String, AllocError> {
        match serde_json::to_string(alloc, self) {
            Ok(text) => Ok(text),
            Err(_) => Err(AllocError),
        }
    }
}

fn per_second(answered: u64, elapsed_us: u64) -> u64 {
    let rate = u128::from(answered) * 1_000_000 / u128::from(elapsed_us.max(1));
    u64::try_from(rate).unwrap_or(u64::MAX)
}

// A bucket for each power of two, from the first in which there is one to the last.
fn buckets_of(alloc: Global, latencies: &Latencies) -> Result<Vec<Bucket>, AllocError> {
    let mut buckets = Vec::new(alloc);
    match push_buckets(&mut buckets, latencies) {
        Ok(()) => Ok(buckets),
        Err(AllocError) => {
            drop(buckets);
            Err(AllocError)
        }
    }
}

fn push_buckets(buckets: &mut Vec<Bucket>, latencies: &Latencies) -> Result<(), AllocError> {
    let all = latencies.count();
    let mut up_to_us: u64 = 1;
    let mut before: u64 = 0;
    for _ in 0..64 {
        let within = latencies.count_within(up_to_us);
        if within > 0 && before < all {
            let count = within.saturating_sub(before);
            buckets.push(Bucket { up_to_us, count })?;
        }
        before = within;
        up_to_us = up_to_us.saturating_mul(2);
    }
    Ok(())
}

impl fmt::Display for Report {
    fn fmt<W: fmt::Write>(&self, f: &mut fmt::Formatter<W>) -> fmt::Result {
        print_rate(f, self)?;
        if self.answered > 0 {
            print_times(f, self)?;
            print_buckets(f, &self.buckets)?;
        }
        print_troubles(f, self)
    }
}

fn print_rate<W: fmt::Write>(f: &mut fmt::Formatter<W>, report: &Report) -> fmt::Result {
    let (answered, operation) = (report.answered, report.operation);
    let (rate, clients) = (report.per_second, report.clients);
    let millis = report.elapsed_us / 1000;
    let (seconds, rest) = (millis / 1000, millis % 1000);
    writeln!(
        f,
        "answered  {answered} {operation}s in {seconds}.{rest:03} s, {rate} a second, {clients} clients"
    )
}

fn print_times<W: fmt::Write>(f: &mut fmt::Formatter<W>, report: &Report) -> fmt::Result {
    let (half, most, worst) = (report.p50_us, report.p99_us, report.worst_us);
    writeln!(
        f,
        "times     p50 {} ms, p99 {} ms, worst {} ms",
        Millis(half),
        Millis(most),
        Millis(worst)
    )
}

fn print_buckets<W: fmt::Write>(f: &mut fmt::Formatter<W>, buckets: &[Bucket]) -> fmt::Result {
    let mut fullest: u64 = 0;
    for bucket in buckets {
        fullest = fullest.max(bucket.count);
    }
    for bucket in buckets {
        print_bucket(f, bucket, fullest)?;
    }
    Ok(())
}

// A bar of 40 stands for the fullest bucket, and one of at least 1 for each that isn't empty.
fn print_bucket<W: fmt::Write>(
    f: &mut fmt::Formatter<W>,
    bucket: &Bucket,
    fullest: u64,
) -> fmt::Result {
    let count = bucket.count;
    let (whole, rest) = (bucket.up_to_us / 1000, bucket.up_to_us % 1000);
    let width = count.saturating_mul(WIDEST) / fullest.max(1);
    let bar = Bar(width.max(count.min(1)));
    writeln!(f, "up to {whole:>7}.{rest:03} ms {count:>9}{bar}")
}

// What went wrong, where something did.
fn print_troubles<W: fmt::Write>(f: &mut fmt::Formatter<W>, report: &Report) -> fmt::Result {
    let (again, lost, ended) = (report.again, report.lost, report.ended);
    if again > 0 {
        writeln!(
            f,
            "again     {again} requests, for which the nodes were too busy"
        )?;
    }
    if lost > 0 {
        writeln!(f, "lost      {lost} connections")?;
    }
    match report.refused {
        Some(PrintedRefusal(why)) => writeln!(f, "ended     {ended} clients early, refused {why}")?,
        None if ended > 0 => writeln!(f, "ended     {ended} clients early")?,
        None => {}
    }
    if report.in_use > 0 {
        writeln!(f, "in use    {} sessions, by other clients", report.in_use)?;
    }
    Ok(())
}

// Microseconds as milliseconds, with three decimals.
#[derive(Clone, Copy)]
struct Millis(u64);

impl fmt::Display for Millis {
    fn fmt<W: fmt::Write>(&self, f: &mut fmt::Formatter<W>) -> fmt::Result {
        let (whole, rest) = (self.0 / 1000, self.0 % 1000);
        write!(f, "{whole}.{rest:03}")
    }
}

// So many `#` behind two blanks, and nothing for 0.
#[derive(Clone, Copy)]
struct Bar(u64);

impl fmt::Display for Bar {
    fn fmt<W: fmt::Write>(&self, f: &mut fmt::Formatter<W>) -> fmt::Result {
        if self.0 > 0 {
            write!(f, "  ")?;
        }
        for _ in 0..self.0 {
            write!(f, "#")?;
        }
        Ok(())
    }
}
