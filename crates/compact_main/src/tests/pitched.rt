//! Texts that are drawn at a pitch.

pub const TWO_NODES_50_APART: &[u8] = b"graph [
  node [
    id 0
    graphics [
      x 0
      y 0
    ]
  ]
  node [
    id 1
    graphics [
      x 50
      y 0
    ]
  ]
  edge [
    source 0
    target 1
  ]
]
";

pub const TWO_NODES_10000_APART: &[u8] = b"graph [
  node [
    id 0
    graphics [
      x 0
      y 0
    ]
  ]
  node [
    id 1
    graphics [
      x 10000
      y 0
    ]
  ]
  edge [
    source 0
    target 1
  ]
]
";

/// Labels, sizes and colours, and a tab before each value.
pub const STYLED: &[u8] = b"Creator\t\"yFiles\"
Version\t\"2.14\"
graph
[
\thierarchic\t1
\tlabel\t\"\"
\tdirected\t1
\tnode
\t[
\t\tid\t0
\t\tlabel\t\"Gr\xc3\xb6\xc3\x9fe\"
\t\tgraphics
\t\t[
\t\t\tx\t100.0
\t\t\ty\t50.0
\t\t\tw\t30.0
\t\t\th\t30.0
\t\t\ttype\t\"rectangle\"
\t\t\tfill\t\"#FFCC00\"
\t\t]
\t]
\tnode
\t[
\t\tid\t1
\t\tlabel\t\"B\"
\t\tgraphics
\t\t[
\t\t\tx\t300.0
\t\t\ty\t170.5
\t\t\tw\t30.0
\t\t\th\t30.0
\t\t]
\t]
\tedge
\t[
\t\tsource\t0
\t\ttarget\t1
\t\tgraphics
\t\t[
\t\t\tfill\t\"#000000\"
\t\t\ttargetArrow\t\"standard\"
\t\t\tLine
\t\t\t[
\t\t\t\tpoint
\t\t\t\t[
\t\t\t\t\tx\t100.0
\t\t\t\t\ty\t50.0
\t\t\t\t]
\t\t\t\tpoint
\t\t\t\t[
\t\t\t\t\tx\t300.0
\t\t\t\t\ty\t50.0
\t\t\t\t]
\t\t\t\tpoint
\t\t\t\t[
\t\t\t\t\tx\t300.0
\t\t\t\t\ty\t170.5
\t\t\t\t]
\t\t\t]
\t\t]
\t]
]
";

pub const STYLED_50_APART: &[u8] = b"Creator \"yFiles\"
Version \"2.14\"
graph [
  hierarchic 1
  label \"\"
  directed 1
  node [
    id 0
    label \"Gr\xc3\xb6\xc3\x9fe\"
    graphics [
      x 0
      y 0
      w 30.0
      h 30.0
      type \"rectangle\"
      fill \"#FFCC00\"
    ]
  ]
  node [
    id 1
    label \"B\"
    graphics [
      x 50
      y 50
      w 30.0
      h 30.0
    ]
  ]
  edge [
    source 0
    target 1
    graphics [
      fill \"#000000\"
      targetArrow \"standard\"
      Line [
        point [
          x 0
          y 0
        ]
        point [
          x 50
          y 0
        ]
        point [
          x 50
          y 50
        ]
      ]
    ]
  ]
]
";
