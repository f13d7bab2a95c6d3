// Days with the text that they print. A house of a day has 2 offices: even records belong to office 0, odd ones to office 1.
use sheet::day::day;
use std::process::Abort;
use std::test::Fail;

// The text of a day is this one.
fn prints(rt: &(impl Abort + AllocGlobal), input: &[u8], expected: &str) -> Result<(), Fail> {
    let text = day(rt.alloc(), input)?;
    assert_eq!(rt; text.as_str(), expected);
    Ok(())
}

#[test]
fn an_inspection_holds_a_job_until_it_closes(rt: HostRuntime) -> Result<(), Fail> {
    prints(
        &rt,
        b"a 1\nw 1 0 840 41200\nh 1\ni 2\nr 2 0\nd 1 0\nd 1 0\nd 1 0\nc 1\ne 2\nc 1",
        "1 ok\n2 ok\n3 ok\n4 ok\n5 ok 0\n6 ok\n7 ok\n8 ok\n9 no H 12\n10 ok\n11 ok answered\nend 2 1\n",
    )
}

#[test]
fn no_input_prints_the_end(rt: HostRuntime) -> Result<(), Fail> {
    prints(&rt, b"", "end\n")
}

// Jobs 1 and 2 install records 0 and 1, after inspection 3 read record 0 and inspection 4 record 1.
#[test]
fn crossing_inspections_see_neither_job(rt: HostRuntime) -> Result<(), Fail> {
    prints(
        &rt,
        b"a 1\nw 1 0 840 1\na 2\nw 2 1 840 2\ni 3\nr 3 0\ni 4\nr 4 1\nh 1\nd 1 0\nd 1 0\nd 1 0\nh 2\nd 2 1\nd 2 1\nd 2 1\nr 3 1\nr 4 0\nc 1\nc 2\ne 3\nc 1\nc 2\ne 4\nc 1\nc 2",
        "1 ok\n2 ok\n3 ok\n4 ok\n5 ok\n6 ok 0\n7 ok\n8 ok 0\n9 ok\n10 ok\n11 ok\n12 ok\n13 ok\n14 ok\n15 ok\n16 ok\n17 ok 0\n18 ok 0\n19 no H 12\n20 no H 12\n21 ok\n22 no H 12\n23 no H 12\n24 ok\n25 ok answered\n26 ok answered\nend 3 4 1 2\n",
    )
}

// Mark 1: another job holds the record. Mark 2: the record read has a newer version. A second write, and reads told again.
#[test]
fn marks_of_dropped_jobs(rt: HostRuntime) -> Result<(), Fail> {
    prints(
        &rt,
        b"a 1\nr 1 0\nw 1 0 840 1\nw 1 0 840 2\na 2\nr 2 0\nw 2 0 840 3\na 3\nr 3 0\nh 1\nd 1 0\nh 2\nd 2 0\nd 2 0\nd 2 0\nc 2\nd 1 0\nd 1 0\nc 1\nh 3\nd 3 0\nd 3 0\nr 3 0\nd 3 0\nc 3\ni 4\nr 4 0\nr 4 0",
        "1 ok\n2 ok 0\n3 ok\n4 ok\n5 ok\n6 ok 0\n7 ok\n8 ok\n9 ok 0\n10 ok\n11 ok\n12 ok\n13 ok\n14 ok\n15 ok\n16 ok dropped 1\n17 ok\n18 ok\n19 ok answered\n20 ok\n21 ok\n22 ok\n23 no H 7\n24 ok\n25 ok dropped 2\n26 ok\n27 ok 1 840 2\n28 ok 1 840 2\nend 1\n",
    )
}

// Job 2 is refused by both offices: by office 0 with mark 2, by office 1 with mark 1. The lowest office's mark counts.
#[test]
fn lowest_office_gives_the_mark(rt: HostRuntime) -> Result<(), Fail> {
    prints(
        &rt,
        b"a 2\nr 2 0\nw 2 1 840 1\na 1\nw 1 0 840 1\nh 1\nd 1 0\nd 1 0\nd 1 0\na 3\nw 3 1 840 3\nh 3\nd 3 1\nh 2\nd 2 1\nd 2 0\nd 2 1\nc 2\nd 2 0\nc 2\nd 2 0\nd 2 1\nd 2 1\nc 2\nc 3",
        "1 ok\n2 ok 0\n3 ok\n4 ok\n5 ok\n6 ok\n7 ok\n8 ok\n9 ok\n10 ok\n11 ok\n12 ok\n13 ok\n14 ok\n15 ok\n16 ok\n17 ok\n18 no H 11\n19 ok\n20 no H 11\n21 ok\n22 ok\n23 no H 10\n24 ok dropped 2\n25 no H 11\nend\n",
    )
}

// A job with no record is accepted on the spot; refusals 4, 6, 7, 10 and 11 of the later calls.
#[test]
fn refusals_of_the_later_calls(rt: HostRuntime) -> Result<(), Fail> {
    prints(
        &rt,
        b"a 1\nc 1\nh 1\nh 1\nd 1 0\nd 1 2\nd 256 2\nd 9 0\nc 1\nc 1\ni 2\nh 2\nd 2 0\nc 2\ne 1\ne 2\ne 2\nr 2 0\nc 9\ne 9\nh 9",
        "1 ok\n2 no H 7\n3 ok\n4 no H 7\n5 no H 10\n6 no H 4\n7 no H 1\n8 no H 5\n9 ok answered\n10 no H 7\n11 ok\n12 no H 6\n13 no H 6\n14 no H 6\n15 no H 6\n16 ok\n17 no H 7\n18 no H 7\n19 no H 5\n20 no H 5\n21 no H 5\nend 1 2\n",
    )
}
