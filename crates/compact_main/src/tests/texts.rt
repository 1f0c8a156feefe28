//! The texts of the tests, and what is written for them.

pub const TWO_NODES: &[u8] = b"graph [
  node [ id 0 graphics [ x 0 y 0 ] ]
  node [ id 1 graphics [ x 500 y 0 ] ]
  edge [ source 0 target 1 ]
]
";

pub const TWO_NODES_DRAWN: &[u8] = b"graph [
  node [
    id 0
    graphics [
      x 0
      y 0
    ]
  ]
  node [
    id 1
    graphics [
      x 1
      y 0
    ]
  ]
  edge [
    source 0
    target 1
  ]
]
";

pub const ONE_NODE: &[u8] = b"graph [\n  node [ id 0 graphics [ x 7 y -2 ] ]\n]\n";

pub const ONE_NODE_DRAWN: &[u8] = b"graph [
  node [
    id 0
    graphics [
      x 0
      y 0
    ]
  ]
]
";

pub const FROM_EAST_TO_WEST: &[u8] = b"graph [
  node [ id 0 graphics [ x 5 y 0 ] ]
  node [ id 1 graphics [ x 0 y 0 ] ]
  edge [ source 0 target 1 ]
]
";

pub const WITH_CREATOR: &[u8] = b"Creator \"x\"
# a line of words
graph [
  node [ id 0 graphics [ x 0 y 0 ] ]
  node [ id 1 graphics [ x 500 y 0 ] ]
  edge [ source 0 target 1 ]
]
";

pub const WITH_CREATOR_DRAWN: &[u8] = b"Creator \"x\"
graph [
  node [
    id 0
    graphics [
      x 0
      y 0
    ]
  ]
  node [
    id 1
    graphics [
      x 1
      y 0
    ]
  ]
  edge [
    source 0
    target 1
  ]
]
";

/// 65 lists, each in the one before it.
pub const LISTS_65: &[u8] = b"\
    a[a[a[a[a[a[a[a[a[a[a[a[a[a[a[a[a[a[a[a[a[a[a[a[a[a[a[a[a[a[a[a[\
    a[a[a[a[a[a[a[a[a[a[a[a[a[a[a[a[a[a[a[a[a[a[a[a[a[a[a[a[a[a[a[a[a[";

pub const HALF_STEPS: &[u8] = b"graph [\n  node [ id 0 graphics [ x 3.5 y -2 ] ]\n]\n";

pub const CROSSING: &[u8] = b"graph [
  node [ id 0 graphics [ x 0 y 0 ] ]
  node [ id 1 graphics [ x 10 y 0 ] ]
  node [ id 2 graphics [ x 5 y -5 ] ]
  node [ id 3 graphics [ x 5 y 5 ] ]
  edge [ source 0 target 1 ]
  edge [ source 2 target 3 ]
  edge [ source 1 target 3 graphics [ Line [ point [ x 10 y 5 ] ] ] ]
]
";

pub const BEND_ON_A_PIECE: &[u8] = b"graph [
  node [ id 0 graphics [ x 0 y 0 ] ]
  node [ id 1 graphics [ x 10 y 0 ] ]
  node [ id 2 graphics [ x 5 y 0 ] ]
  edge [ source 0 target 1 ]
  edge [ source 0 target 2 graphics [ Line [ point [ x 0 y 5 ] point [ x 5 y 5 ] ] ] ]
]
";

pub const EDGE_TWICE: &[u8] = b"graph [
  node [ id 0 graphics [ x 0 y 0 ] ]
  node [ id 1 graphics [ x 10 y 0 ] ]
  edge [ source 0 target 1 ]
  edge [ source 0 target 1 ]
]
";

pub const SLANTED: &[u8] = b"graph [
  node [ id 0 graphics [ x 0 y 0 ] ]
  node [ id 1 graphics [ x 5 y 3 ] ]
  edge [ source 0 target 1 ]
]
";

pub const BEND_TWICE: &[u8] = b"graph [
  node [ id 0 graphics [ x 0 y 0 ] ]
  node [ id 1 graphics [ x 5 y 4 ] ]
  edge [ source 0 target 1 graphics [ Line [ point [ x 0 y 4 ] point [ x 0 y 4 ] ] ] ]
]
";

pub const BEND_ON_A_NODE: &[u8] = b"graph [
  node [ id 0 graphics [ x 0 y 0 ] ]
  node [ id 1 graphics [ x 5 y 4 ] ]
  node [ id 2 graphics [ x 5 y 9 ] ]
  edge [ source 0 target 1 ]
  edge [ source 1 target 2 graphics [ Line [
    point [ x 5 y 4 ] point [ x 5 y 9 ] point [ x 5 y 9 ]
  ] ] ]
]
";

pub const TWO_PARTS: &[u8] = b"graph [
  node [ id 0 graphics [ x 0 y 0 ] ]
  node [ id 1 graphics [ x 1 y 0 ] ]
  node [ id 2 graphics [ x 5 y 5 ] ]
  node [ id 3 graphics [ x 6 y 5 ] ]
  edge [ source 0 target 1 ]
  edge [ source 2 target 3 ]
]
";

pub const NODE_ON_A_NODE: &[u8] = b"graph [
  node [ id 0 graphics [ x 0 y 0 ] ]
  node [ id 1 graphics [ x 1 y 0 ] ]
  node [ id 2 graphics [ x 0 y 0 ] ]
  edge [ source 0 target 1 ]
]
";

pub const TOO_FINE: &[u8] = b"graph [
  node [ id 0 graphics [ x 0.1234 y 0 ] ]
]
";

pub const ID_TWICE: &[u8] = b"graph [
  node [ id 1 graphics [ x 0 y 0 ] ]
  node [ id 1 graphics [ x 5 y 0 ] ]
  edge [ source 1 target 9 ]
]
";

pub const UNKNOWN_END: &[u8] = b"graph [
  node [ id 1 graphics [ x 0 y 0 ] ]
  node [ id 2 graphics [ x 5 y 0 ] ]
  edge [ source 1 target 9 ]
]
";

pub const HOOK: &[u8] = b"graph [
  node [ id 0 graphics [ x 0 y 0 ] ]
  node [ id 1 graphics [ x 0 y 10 ] ]
  node [ id 2 graphics [ x 20 y 0 ] ]
  node [ id 3 graphics [ x 20 y 5 ] ]
  node [ id 4 graphics [ x 10 y 10 ] ]
  edge [ source 0 target 1 ]
  edge [ source 0 target 2 ]
  edge [ source 2 target 3 ]
  edge [ source 1 target 4 ]
]
";

pub const STRAIGHT_POINT: &[u8] = b"graph [
  node [ id 0 graphics [ x 0 y 0 ] ]
  node [ id 1 graphics [ x 10 y 0 ] ]
  edge [ source 0 target 1 graphics [ Line [ point [ x 4 y 0 ] ] ] ]
]
";

pub const EDGE_FIRST: &[u8] = b"graph [
  edge [ source 0 target 1 ]
  node [ id 0 graphics [ x 0 y 0 ] ]
  node [ id 1 graphics [ x 500 y 0 ] ]
]
";

pub const EDGE_FIRST_DRAWN: &[u8] = b"graph [
  edge [
    source 0
    target 1
  ]
  node [
    id 0
    graphics [
      x 0
      y 0
    ]
  ]
  node [
    id 1
    graphics [
      x 1
      y 0
    ]
  ]
]
";

pub const ID_TWICE_LINE: &[u8] = b"refused: node 1 repeats an id\n";

pub const UNKNOWN_END_LINE: &[u8] = b"refused: edge 0 names no node\n";

pub const NO_ID: &[u8] = b"graph [
  node [ id 0 graphics [ x 0 y 0 ] ]
  node [ graphics [ x 5 y 0 ] ]
]
";

pub const FAR_OUT: &[u8] = b"graph [
  node [ id 0 graphics [ x 10000000000.001 y 0 ] ]
]
";

pub const NO_END: &[u8] = b"graph [
  node [ id 1 graphics [ x 0 y 0 ] ]
  edge [ source 1 target 1 ]
  edge [ source 1 ]
]
";

pub const BAD_POINT: &[u8] = b"graph [
  node [ id 1 graphics [ x 0 y 0 ] ]
  edge [ source 1 target 1 graphics [ Line [ point [ x 0 y 5 ] point [ x 5 ] ] ] ]
]
";

pub const APART: &[u8] = b"refused: vertex 2 is not joined\n";

/// A power of ten that no 64 bits hold.
pub const VAST: &[u8] = b"graph [\n  node [ id 0 graphics [ x 1e99999999999999999999 y 0 ] ]\n]\n";

pub const TINY: &[u8] = b"graph [\n  node [ id 0 graphics [ x 1e-99999999999999999999 y 0 ] ]\n]\n";

pub const VAST_NOTHING: &[u8] =
    b"graph [\n  node [ id 0 graphics [ x 0e99999999999999999999 y 0 ] ]\n]\n";
