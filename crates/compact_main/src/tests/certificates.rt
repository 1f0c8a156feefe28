//! Texts of certificates, and what the user is told of them.

pub const ONE_NODE_CERTIFICATE: &[u8] = b"#! compaction 1 pitch 1
#! bound x y
";

pub const TWO_NODES_CERTIFICATE: &[u8] = b"#! compaction 1 pitch 1
#! bound x 0:1 y
";

pub const SQUARE_CERTIFICATE: &[u8] = b"#! compaction 1 pitch 1
#! bound x 0:1 1:1 y 0:1 1:1
";

pub const TWO_BENDS_CERTIFICATE: &[u8] = b"#! compaction 1 pitch 1
#! bound x 0:1 y 0:1 1:1
";

pub const CROSS_CERTIFICATE: &[u8] = b"#! compaction 1 pitch 1
#! bound x 0:1 1:1 y 0:1 1:1
";

pub const STYLED_CERTIFICATE: &[u8] = b"#! compaction 1 pitch 50
#! bound x 0:1 y 0:1
";

pub const HOOK_CERTIFICATE: &[u8] = b"#! compaction 1 pitch 1
#! split 1 3
#! bound x 1:2 2:1 y 0:1 1:1
#! cycle x 0 2
#! cycle y 0 2
#! bound x 0:1 1:1 y 1:2 2:1
";

pub const HOOK_LINE_LESS: &[u8] = b"#! compaction 1 pitch 1
#! split 1 3
#! bound x 1:2 2:1 y 0:1 1:1
#! cycle x 0 2
#! cycle y 0 2
";

pub const HOOK_LINE_MORE: &[u8] = b"#! compaction 1 pitch 1
#! split 1 3
#! bound x 1:2 2:1 y 0:1 1:1
#! cycle x 0 2
#! cycle y 0 2
#! bound x 0:1 1:1 y 1:2 2:1
#! bound x 0:1 1:1 y 1:2 2:1
";

pub const HOOK_VERSION_2: &[u8] = b"#! compaction 2 pitch 1
#! bound x y
";

pub const HOOK_AT_PITCH_2: &[u8] = b"#! compaction 1 pitch 2
#! bound x y
";

pub const HOOK_UNBALANCED: &[u8] = b"#! compaction 1 pitch 1
#! split 1 3
#! bound x 1:3 2:1 y 0:1 1:1
#! cycle x 0 2
#! cycle y 0 2
#! bound x 0:1 1:1 y 1:2 2:1
";

pub const HOOK_OPEN_CYCLE: &[u8] = b"#! compaction 1 pitch 1
#! split 1 3
#! bound x 1:2 2:1 y 0:1 1:1
#! cycle x 0 1
#! cycle y 0 2
#! bound x 0:1 1:1 y 1:2 2:1
";

/// The best drawing of the hook, with both ends of its arm a step further east.
pub const HOOK_WIDE: &[u8] = b"graph [
  node [ id 0 graphics [ x 0 y 0 ] ]
  node [ id 1 graphics [ x 0 y 1 ] ]
  node [ id 2 graphics [ x 3 y 0 ] ]
  node [ id 3 graphics [ x 3 y 1 ] ]
  node [ id 4 graphics [ x 1 y 1 ] ]
  edge [ source 0 target 1 ]
  edge [ source 0 target 2 ]
  edge [ source 2 target 3 ]
  edge [ source 1 target 4 ]
]
";

/// With one end alone.
pub const HOOK_SLANTED: &[u8] = b"graph [
  node [ id 0 graphics [ x 0 y 0 ] ]
  node [ id 1 graphics [ x 0 y 1 ] ]
  node [ id 2 graphics [ x 3 y 0 ] ]
  node [ id 3 graphics [ x 2 y 1 ] ]
  node [ id 4 graphics [ x 1 y 1 ] ]
  edge [ source 0 target 1 ]
  edge [ source 0 target 2 ]
  edge [ source 2 target 3 ]
  edge [ source 1 target 4 ]
]
";

/// The best drawing of the hook, a step from zero.
pub const HOOK_MOVED: &[u8] = b"graph [
  node [ id 0 graphics [ x 1 y 0 ] ]
  node [ id 1 graphics [ x 1 y 1 ] ]
  node [ id 2 graphics [ x 3 y 0 ] ]
  node [ id 3 graphics [ x 3 y 1 ] ]
  node [ id 4 graphics [ x 2 y 1 ] ]
  edge [ source 0 target 1 ]
  edge [ source 0 target 2 ]
  edge [ source 2 target 3 ]
  edge [ source 1 target 4 ]
]
";

pub const HOOK_DRAWN: &[u8] = b"graph [
  node [
    id 0
    graphics [
      x 0
      y 0
    ]
  ]
  node [
    id 1
    graphics [
      x 0
      y 1
    ]
  ]
  node [
    id 2
    graphics [
      x 2
      y 0
    ]
  ]
  node [
    id 3
    graphics [
      x 2
      y 1
    ]
  ]
  node [
    id 4
    graphics [
      x 1
      y 1
    ]
  ]
  edge [
    source 0
    target 1
  ]
  edge [
    source 0
    target 2
  ]
  edge [
    source 2
    target 3
  ]
  edge [
    source 1
    target 4
  ]
]
";

pub const NO_CERTIFICATE: &[u8] = b"not proved: no certificate\n";

pub const LINE_1_BAD: &[u8] = b"not proved: line 1 is bad\n";

pub const LINE_6_LACKING: &[u8] = b"not proved: line 6 lacks a branch\n";

pub const LINE_7_MORE: &[u8] = b"not proved: line 7 is too many\n";

pub const OFF_THE_GRID: &[u8] = b"not proved: vertex 1 is not on the grid\n";

pub const UNBALANCED: &[u8] = b"not proved: entry 1 is not balanced at x node 0\n";

pub const WEAK_BOUND: &[u8] = b"not proved: entry 1 has too weak a bound\n";

pub const NO_CYCLE: &[u8] = b"not proved: entry 2 is not a cycle\n";

pub const NOT_FROM_ZERO: &[u8] = b"not proved: not from zero\n";

pub const PIECE_2_SLANTED: &[u8] = b"refused: piece 2 is slanted\n";

pub const SAMPLE_1: &[u8] = b"sample 1
vertices 3
pieces 2
length 2
width 1
height 1
proved
";

pub const SAMPLE_200: &[u8] = b"sample 200
vertices 408
pieces 407
length 415
width 2
height 199
proved
";
