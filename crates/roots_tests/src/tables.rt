//! Tables of edits and operations, each with its answer.
use crate::playing::played;
use mem_roots::MemRoot;
use std::test::Fail;

/// Edits against each kind of entry, with the parent there, absent, or no folder.
const EDITS: &str = "\
E put q/r  => refused q -
E dir  => refused  d
E put  x => refused  d
E dir d => done
E put d/f x => done
E link d/l t => done
E other d/o => done
E put d/f/g x => refused d/f f
E dir d/f/g => refused d/f f
E other d/l/g => refused d/l lt
E link d/o/g t => refused d/o u
E put d x => refused d d
E link d t => refused d d
E other d => refused d d
E dir d => refused d d
E dir d/f => refused d/f f
E dir d/l => refused d/l lt
E dir d/o => refused d/o u
E put d/f y => done
E put d/l y => done
E put d/o y => done
E link d/f t => done
E other d/f => done
E link d/f t => done
E other d/l => done
1 list d => listed f=lt l=o o=f3
E del d/f/g => refused d/f/g -
E del d/f => done
E del d/f => refused d/f -
E del d => done
1 list d/o => held -
E del  => done
E put a x => refused  -
E dir a/b => refused a -
E put  x => done
E put a x => refused  f
E del  => done
E dir  => done
1 list  => listed
";

/// Each row of the operations, with each of its answers but `too-large` and those of a full root.
const OPERATIONS: &str = "\
E dir d => done
E put d/f abc => done
E link d/l t => done
E other d/o => done
1 list  => listed d=d
1 list d => listed f=f0 l=lt o=o
1 list d/f => held f0
1 list n => held -
1 fetch d/f 0 1 => piece bc last
1 fetch d/f 0 7 => piece  last
1 fetch d/f 1 0 => changed f0
1 fetch d 0 0 => changed d
1 fetch n 0 0 => changed -
1 append x => not-staged
1 keep x => not-staged
1 open => opened
1 append ab => opened
1 append c => opened
2 keep abc => not-staged
1 keep ab => digest-differs
1 keep abc => not-staged
1 open => opened
1 append lost => opened
1 open => opened
1 append abc => opened
1 keep abc => kept
1 keep abc => not-staged
2 place n abc - => not-staged
1 place d/f/n abc - => no-parent f0
1 place n/n abc - => no-parent -
1 place d/f abc - => differs f0
1 place d/f abc f1 => differs f0
1 place d/f abd f0 => not-staged
1 place d/f abc f0 => done 1
1 place d/l abc lt => done 2
1 place n abc - => done 3
1 fetch n 3 0 => piece abc last
1 mkdir d => differs d
1 mkdir n/x => no-parent f3
1 mkdir e => done
1 mklink d/k t - => done
1 mklink d/k u lt => done
1 mklink d/k u lt => differs lu
1 mklink x/k u - => no-parent -
1 remove d d => not-empty
1 remove d f1 => differs d
1 remove e d => done
1 remove e d => differs -
1 remove d/k lu => done
1 remove d/o f1 => differs o
1 remove d/f f0 => differs f1
1 remove d/f f1 => done
1 list d => listed l=f2 o=o
2 open => opened
1 open => opened
1 append one => opened
2 append two => opened
1 keep one => kept
2 keep two => kept
1 place x two - => not-staged
2 place x one - => not-staged
1 place x one - => done 4
2 place y two - => done 5
1 clear => cleared
1 place z one - => not-staged
2 place z two - => done 6
";

/// The executable bit: edits and operations, each with the right entry, another stamp, the other bit and another kind.
const BITS: &str = "\
E dir d => done
E put d/f abc => done
E exec d/f on => done
1 list d => listed f=x0
1 fetch d/f 0 0 => piece abc last
E exec d/f on => done
E exec d/f off => done
E exec d on => refused d d
E exec  on => refused  d
E exec n on => refused n -
E exec n/f on => refused n/f -
E exec d/f/g on => refused d/f/g -
1 exec d/f f0 => done
1 exec d/f f0 => differs x0
1 exec d/f x1 => differs x0
1 exec d f0 => differs d
1 exec n f0 => differs -
1 exec d/f x0 => done
1 noexec d/f x0 => done
1 noexec d/f x0 => differs f0
1 open => opened
1 append abd => opened
1 keep abd => kept
1 placex d/f abd x0 => differs f0
1 placex d/f abd f0 => done 1
1 place d/g abd - => done 2
1 list d => listed f=x1 g=f2
1 remove d/f f1 => differs x1
E put d/f abc => done
1 list d => listed f=f3 g=f2
";

#[test]
fn executable_bits_are_set_and_kept(rt: HostRuntime) -> Result<(), Fail> {
    let alloc = rt.alloc();
    let mut root = MemRoot::new(alloc)?;
    assert_eq!(rt; played(alloc, &mut root, BITS)?.as_str(), BITS);
    Ok(())
}

#[test]
fn edits_are_done_or_refused(rt: HostRuntime) -> Result<(), Fail> {
    let alloc = rt.alloc();
    let mut root = MemRoot::new(alloc)?;
    assert_eq!(rt; played(alloc, &mut root, EDITS)?.as_str(), EDITS);
    Ok(())
}

#[test]
fn operations_are_answered_by_their_rows(rt: HostRuntime) -> Result<(), Fail> {
    let alloc = rt.alloc();
    let mut root = MemRoot::new(alloc)?;
    assert_eq!(rt; played(alloc, &mut root, OPERATIONS)?.as_str(), OPERATIONS);
    assert_eq!(rt; root.log().len(), OPERATIONS.lines().count());
    Ok(())
}

/// The operations with the numbers 1 and 3 are to fail.
const FAILING: &str = "\
1 mkdir a => done
1 mkdir b => failed
E dir c => done
1 list  => listed a=d c=d
1 remove a d => failed
1 remove a d => done
";

#[test]
fn operations_fail_by_their_number(rt: HostRuntime) -> Result<(), Fail> {
    let alloc = rt.alloc();
    let mut root = MemRoot::new(alloc)?;
    root.fail(alloc, &[3, 1, 3])?;
    assert_eq!(rt; played(alloc, &mut root, FAILING)?.as_str(), FAILING);
    Ok(())
}
