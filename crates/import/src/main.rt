// The program of the bulk import: `import FILE..` makes the sheet of each list beside it as FILE.sheet, and says what became of each in
// one line. The crate bulk_import has the work.
#![tactic(auto)]

fn main(rt: HostRuntime) {
    bulk_import::import_all(&rt);
}
