// What the tables hold that a call can write, sixteen words to a line: each table as far as it is
// lent, scratch from a place on.
use replay::println_table;
use std::io;
use stored_rows::Stored;

// The clusters, their members, and scratch from place `at` on.
pub fn clusters(rt: &impl Print, s: &Stored, at: usize) -> io::Result<()> {
    let lent = s.clusters_lent;
    println_table(rt, &s.clusters.p, 0, lent.cluster_p)?;
    println_table(rt, &s.clusters.n, 0, lent.cluster_n)?;
    println_table(rt, &s.clusters.area, 0, lent.cluster_area)?;
    println_table(rt, &s.clusters.radius, 0, lent.radius)?;
    println_table(rt, &s.members.first, 0, lent.first)?;
    println_table(rt, &s.members.count, 0, lent.count)?;
    println_table(rt, &s.members.member, 0, lent.member)?;
    println_table(rt, &s.members.order, at, lent.order)?;
    println_table(rt, &s.members.spare, at, lent.spare)
}

// The rows, and scratch from place `at` on.
pub fn rows(rt: &impl Print, s: &Stored, at: usize) -> io::Result<()> {
    let lent = s.rows_lent;
    println_table(rt, &s.rows.starts, 0, lent.starts)?;
    println_table(rt, &s.rows.link_cluster, 0, lent.link_cluster)?;
    println_table(rt, &s.rows.link_weight, 0, lent.link_weight)?;
    println_table(rt, &s.rows.link, at, lent.link)?;
    println_table(rt, &s.rows.weight, at, lent.weight)
}
