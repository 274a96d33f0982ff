//! What the command prints of itself.

ghost use Rattle.std.specs.Prelude.{◌≡◌, Some};
ghost use Rattle.std.specs.Io.{StartsWith};
ghost use Rattle.cvss_subcommands.specs.Done.{help_of};
ghost use Rattle.cvss_subcommands.specs.Usage.{help_start};

use crate::subcommand::Subcommand;

/// What `--version` prints.
pub(crate) const VERSION: &str = "cvss 2.0.0\n";

/// What `help` prints.
pub const USAGE: &str = "\
usage: cvss COMMAND [OPTION].. [VECTOR|FILE]..
       cvss help [COMMAND], cvss version, -h, --help, -V, --version

  score    the canonical vector, its score and severity for each line
  find     the same for each vector in any text, with its line and column
  explain  how the score is computed, as text or as one JSON object a line
  set      the same as score, with metrics replaced or added
  diff     the metrics in which two vectors differ, and their scores
  triage   lines of any text ranked by the scores of their vectors
  audit    where JSON documents disagree with the vectors in them

An argument with a colon before its first slash is read as a vector; ./ before
it makes it a file. Without either, or for -, standard input is read. Options
may follow vectors and files; -- ends them, and --set=E:A is as --set E:A.

  cvss score CVSS:3.1/AV:N/AC:L/PR:N/UI:N/S:U/C:H/I:H/A:H
  cvss help score

Exit status: 0 on success, 1 if lines are rejected or documents disagree, else 2
";

/// What `help score` prints.
pub(crate) const SCORE_USAGE: &str = "\
usage: cvss score [--json|--tsv|--csv [--column C]|[--standard] [--count]]
                  [--guard] [--base] [--min SCORE] [--fail-on SCORE] [--quiet]
                  [--allow-incomplete] [VECTOR|FILE]..

Prints for each vector of v2 to v4.0, an argument or a line of a file or of
standard input, the canonical vector, the score with all its metrics and its
severity, or `error: ` and the reason; with several files after the file's name.

  --tsv                columns: given, vector, version, base, temporal,
                       environmental, score, severity, nomenclature, error
  --json               one object per line with the same members
  --csv                CSV as it is, with six cells more in each record
  --column C           its column with the vectors: a name, or a number from 1
  --guard              an apostrophe before cells that a spreadsheet would run
  --standard           reject what the standard of the version does not allow
  --base               print and compare base scores (v4.0: of CVSS-B)
  --min SCORE          pass over vectors that score less than 7.0 or high, say
  --fail-on SCORE      exit with status 1 if a vector scores at least that
  --count              print how many there are of each severity, and rejected
  --quiet              print nothing
  --allow-incomplete   score v3 vectors that lack base metrics

  cvss score --min high --fail-on 9.0 list.txt
Exit status: 0 on success; 1 if a line is rejected; 2 on usage or I/O errors.
";

/// What `help find` prints.
pub(crate) const FIND_USAGE: &str = "\
usage: cvss find [--json|--csv [--column C]|--annotate [--all]|--count]
                 [--guard] [--base] [--min SCORE] [--fail-on SCORE] [--quiet]
                 [--allow-incomplete] [--assume 3.0|3.1] [FILE]..

Finds the vectors in any text, of any bytes, also in links and JSON. For each it
prints LINE:COLUMN (both from 1, in bytes), a space and the line of cvss score;
with several files the name of the file and a colon before that. Rejected are
vectors without a prefix, as AV:N/AC:L/PR:N.. (unless --assume or a link says
their version), with a misspelled one, as cvss:3.1/ and CVSS3.1/, and before a
slash that ends the line: the vector may go on in the next.

  --annotate           repeat each line, then a tab and what is printed for its
                       first vector; with --all for each of its vectors
  --json               objects: line, column, text, and as cvss score --json
  --csv                a row of CSV for each vector: its record and six cells;
  --column, --guard    as cvss score --csv
  --base               print base scores (--json: all)
  --min, --fail-on     pass over vectors, or fail, by their scores, and
  --count, --quiet     print numbers or nothing, as cvss score; not annotated
  --allow-incomplete   score incomplete vectors of v3, and before such a slash
  --assume VERSION     read v3 vectors without a prefix as of v3.0 or v3.1

  cvss find --annotate findings.tsv
Exit status: 0 on success; 1 if a vector is rejected; 2 on usage or I/O errors.
";

/// What `help explain` prints.
pub(crate) const EXPLAIN_USAGE: &str = "\
usage: cvss explain [--json|--what-if] [--allow-incomplete] [VECTOR|FILE]..

Shows how the score of each vector (v2, v3.0, v3.1, v4.0) is computed: the line
that cvss score prints for it, then each metric with its weight (v2, v3) or the
levels that it counts in (v4.0), and the numbers on the way to the score. An
empty line follows each explanation.

  --json               one JSON object for each line, with all numbers; with
                       several files first its file
  --what-if            for each value of each metric the score that it would
                       give; an asterisk marks the vector's own value
  --allow-incomplete   explain v3 vectors that lack base metrics, which are
                       rejected otherwise

  cvss explain CVSS:3.1/AV:N/AC:L/PR:N/UI:N/S:U/C:H/I:H/A:H
  cvss explain --what-if CVSS:3.1/AV:N/AC:L/PR:N/UI:N/S:U/C:H/I:H/A:H

Exit status: 0 on success; 1 if a line is rejected; 2 on usage or I/O errors.
";

/// What `help set` prints.
pub(crate) const SET_USAGE: &str = "\
usage: cvss set METRIC:VALUE.. [--base] [--allow-incomplete] [VECTOR|FILE]..

Replaces or adds metrics of vectors of any version, and prints the line that
cvss score prints for each new vector. An argument with a slash is a vector or a
file, and any other before -- is a metric and its value. Without vectors and
files, or for -, standard input is read, with one vector per line.

  --base               print base scores (v4.0: of CVSS-B) and their severities
  --allow-incomplete   accept new v3 vectors that lack base metrics, which are
                       rejected otherwise

  cvss set E:A < list.txt
  cvss set MAV:L CR:H CVSS:3.1/AV:N/AC:L/PR:N/UI:N/S:U/C:H/I:H/A:H

Exit status: 0 on success; 1 if a line is rejected; 2 on usage or I/O errors.
";

/// What `help triage` prints.
pub(crate) const TRIAGE_USAGE: &str = "\
usage: cvss triage [--set METRIC:VALUE].. [--profile FILE].. [--keep-going]
                   [--csv [--column C] [--guard]|[--header] [--json|--count]]
                   [--prefer VERSION|highest] [--quiet] [--base] [--min SCORE]
                   [--fail-on SCORE] [--allow-incomplete] [VECTOR|FILE]..

Ranks lines by the scores of the vectors in them, highest first, after --set and
--profile. Rows: the score with all metrics, severity, vector, a tab, the line.

  --set METRIC:VALUE   set it in the vectors of all versions that have it
  --profile FILE       set the partial vector in each line of FILE, for v2, v3.0
                       and v3.1, or v4.0: CR:H, CVSS:3.1/CR:H, CVSS:4.0/CR:H
  --keep-going         skip lines without one vector; otherwise print nothing
  --header             keep the first line on top, and skip those of other files
  --prefer VERSION     of several rank that of 4.0, 3.1, 3.0, 2.0, or highest
  --csv                rank records of CSV, and write them as cvss score does
  --column, --guard    as cvss score --csv
  --json               one object a line with the members of cvss score --json
  --base               rank by base scores (v4.0: of CVSS-B)
  --min, --fail-on     pass over vectors, or fail, by their scores, and
  --count, --quiet     print numbers or no rows, as cvss score
  --allow-incomplete   score v3 vectors that lack base metrics

  cvss triage --set E:A --profile ours.txt --keep-going list.txt
Exit status: 0 on success; 1 if a line was skipped; 2 on usage or I/O errors.
";

/// What `help audit` prints.
pub(crate) const AUDIT_USAGE: &str = "\
usage: cvss audit [--json [--differing]|--count] [--min SCORE]
                  [--fail-on SCORE] [--quiet] [--allow-incomplete]
                  [--document] [FILE]..

Finds the CVSS vectors in JSON documents (NVD, CVE, CSAF, OSV, GitHub,
CycloneDX, SPDX, Trivy, grype, cargo-audit) and prints a line for each member
that disagrees with its vector, each rejected vector, and each v3 vector that
lacks base metrics. A last line on standard error counts documents, vectors and
disagreements. An input is one document, or has one per line if its first line
is one by itself. With several files each line begins with the name of its file.

  --json               one object for each vector, with what disagrees in it
  --differing          with --json: only vectors that would have a line
  --min SCORE          pass over vectors that score less than 7.0 or high, say
  --fail-on SCORE      exit with status 1 if a vector scores at least that
  --count              print how many there are of each severity, and rejected
  --quiet              print nothing
  --allow-incomplete   v3 vectors that lack base metrics are no findings
  --document           each input is one document

  cvss audit --json --differing nvd.json | jq -c '{at, differs}'
Exit status: 0 on success; 1 if a vector is rejected or lacks metrics, or a
document disagrees or is not JSON; 2 on usage or I/O errors.
";

/// What `help diff` prints.
pub(crate) const DIFF_USAGE: &str = "\
usage: cvss diff [--base] [--allow-incomplete] VECTOR VECTOR

Prints a line for each metric in which two vectors of one version differ, as
`E: X -> P` (a hyphen for a metric that a vector lacks), and then their scores.
In place of the second a file or - may be given: each of its lines is compared
with the first.

  --base               compare base scores (v4.0: of CVSS-B)
  --allow-incomplete   compare v3 vectors that lack base metrics

  cvss diff CVSS:3.1/AV:N/AC:L/PR:N/UI:N/S:U/C:H/I:H/A:H \\
            CVSS:3.1/AV:N/AC:H/PR:N/UI:N/S:U/C:H/I:H/A:H/E:P

Exit status: 0 on success; 1 if a vector is rejected or the versions differ; 2
on usage or I/O errors.
";

/// The help on a subcommand, or on all.
pub(crate) fn help_of(topic: Option<Subcommand>) -> &'static str
    ensures text { result.now ≡ help_of USAGE.now SCORE_USAGE.now FIND_USAGE.now EXPLAIN_USAGE.now SET_USAGE.now TRIAGE_USAGE.now AUDIT_USAGE.now DIFF_USAGE.now topic }
    ensures start { StartsWith result.now (help_start topic) }
{
    match topic {
        None => USAGE,
        Some(subcommand) => help_on(subcommand),
    }
}

/// The help on a subcommand.
fn help_on(subcommand: Subcommand) -> &'static str
    ensures text { result.now ≡ help_of USAGE.now SCORE_USAGE.now FIND_USAGE.now EXPLAIN_USAGE.now SET_USAGE.now TRIAGE_USAGE.now AUDIT_USAGE.now DIFF_USAGE.now (Some subcommand) }
    ensures start { StartsWith result.now (help_start (Some subcommand)) }
{
    match subcommand {
        Subcommand::Score => SCORE_USAGE,
        Subcommand::Find => FIND_USAGE,
        Subcommand::Explain => EXPLAIN_USAGE,
        Subcommand::Set => SET_USAGE,
        Subcommand::Triage => TRIAGE_USAGE,
        Subcommand::Audit => AUDIT_USAGE,
        Subcommand::Diff => DIFF_USAGE,
    }
}
