//! Texts of drawings, and what is written for them.

pub const FROM_EAST_TO_WEST_DRAWN: &[u8] = b"graph [
  node [
    id 0
    graphics [
      x 1
      y 0
    ]
  ]
  node [
    id 1
    graphics [
      x 0
      y 0
    ]
  ]
  edge [
    source 0
    target 1
  ]
]
";

pub const STRAIGHT_POINT_DRAWN: &[u8] = b"graph [
  node [
    id 0
    graphics [
      x 0
      y 0
    ]
  ]
  node [
    id 1
    graphics [
      x 2
      y 0
    ]
  ]
  edge [
    source 0
    target 1
    graphics [
      Line [
        point [
          x 1
          y 0
        ]
      ]
    ]
  ]
]
";

pub const SQUARE: &[u8] = b"graph [
  node [ id 0 graphics [ x 0 y 0 ] ]
  node [ id 1 graphics [ x 10 y 0 ] ]
  node [ id 2 graphics [ x 10 y 3 ] ]
  node [ id 3 graphics [ x 0 y 3 ] ]
  edge [ source 0 target 1 ]
  edge [ source 1 target 2 ]
  edge [ source 2 target 3 ]
  edge [ source 3 target 0 ]
]
";

pub const SQUARE_DRAWN: &[u8] = b"graph [
  node [
    id 0
    graphics [
      x 0
      y 0
    ]
  ]
  node [
    id 1
    graphics [
      x 1
      y 0
    ]
  ]
  node [
    id 2
    graphics [
      x 1
      y 1
    ]
  ]
  node [
    id 3
    graphics [
      x 0
      y 1
    ]
  ]
  edge [
    source 0
    target 1
  ]
  edge [
    source 1
    target 2
  ]
  edge [
    source 2
    target 3
  ]
  edge [
    source 3
    target 0
  ]
]
";

pub const TWO_BENDS: &[u8] = b"graph [
  node [ id 0 graphics [ x 0 y 0 ] ]
  node [ id 1 graphics [ x 5 y 0 ] ]
  edge [ source 0 target 1 graphics [ Line [ point [ x 0 y 4 ] point [ x 5 y 4 ] ] ] ]
]
";

pub const TWO_BENDS_DRAWN: &[u8] = b"graph [
  node [
    id 0
    graphics [
      x 0
      y 0
    ]
  ]
  node [
    id 1
    graphics [
      x 1
      y 0
    ]
  ]
  edge [
    source 0
    target 1
    graphics [
      Line [
        point [
          x 0
          y 1
        ]
        point [
          x 1
          y 1
        ]
      ]
    ]
  ]
]
";

/// The same edge, its first and its last point at its ends.
pub const TWO_BENDS_AND_ENDS: &[u8] = b"graph [
  node [ id 0 graphics [ x 0 y 0 ] ]
  node [ id 1 graphics [ x 5 y 0 ] ]
  edge [ source 0 target 1 graphics [ Line [ point [ x 0 y 0 ] point [ x 0 y 4 ] \
    point [ x 5 y 4 ] point [ x 5 y 0 ] ] ] ]
]
";

pub const TWO_BENDS_AND_ENDS_DRAWN: &[u8] = b"graph [
  node [
    id 0
    graphics [
      x 0
      y 0
    ]
  ]
  node [
    id 1
    graphics [
      x 1
      y 0
    ]
  ]
  edge [
    source 0
    target 1
    graphics [
      Line [
        point [
          x 0
          y 0
        ]
        point [
          x 0
          y 1
        ]
        point [
          x 1
          y 1
        ]
        point [
          x 1
          y 0
        ]
      ]
    ]
  ]
]
";

/// A node with a neighbour on each side.
pub const CROSS: &[u8] = b"graph [
  node [ id 0 graphics [ x 10 y 10 ] ]
  node [ id 1 graphics [ x 20 y 10 ] ]
  node [ id 2 graphics [ x 10 y 20 ] ]
  node [ id 3 graphics [ x 0 y 10 ] ]
  node [ id 4 graphics [ x 10 y 0 ] ]
  edge [ source 0 target 1 ]
  edge [ source 0 target 2 ]
  edge [ source 0 target 3 ]
  edge [ source 0 target 4 ]
]
";

pub const CROSS_DRAWN: &[u8] = b"graph [
  node [
    id 0
    graphics [
      x 1
      y 1
    ]
  ]
  node [
    id 1
    graphics [
      x 2
      y 1
    ]
  ]
  node [
    id 2
    graphics [
      x 1
      y 2
    ]
  ]
  node [
    id 3
    graphics [
      x 0
      y 1
    ]
  ]
  node [
    id 4
    graphics [
      x 1
      y 0
    ]
  ]
  edge [
    source 0
    target 1
  ]
  edge [
    source 0
    target 2
  ]
  edge [
    source 0
    target 3
  ]
  edge [
    source 0
    target 4
  ]
]
";
