//! The examples of the repository and other texts that are measured, and their numbers.

/// Of nodes 0 to 4 the rows are 0 2, 1 4 and 3, the columns 0 1, 2 3 and 4; nodes 3 and 4 have no
/// piece in theirs. Three pairs of the four segments share node 0, 1 or 2. Of the others the two
/// rows are apart by column 0 1 and the two columns by row 0 2, but nothing holds row 1 4 away from
/// column 2 3.
pub const HOOK_MEASURED: &[u8] = b"vertices 5
pieces 4
rows 3
columns 3
bars 4
pairs 3
separated 2
length 45000
";

pub const ONE_NODE_MEASURED: &[u8] = b"vertices 1
pieces 0
rows 1
columns 1
bars 0
pairs 0
separated 0
length 0
";

/// The file examples/chain.gml.
pub const CHAIN: &[u8] = b"Creator \"hand\"
# Three stations on one line, drawn far apart.
graph [
  node [ id 0 graphics [ x 0 y 40 ] ]
  node [ id 1 graphics [ x 125 y 40 ] ]
  node [ id 2 graphics [ x 300 y 40 ] ]
  edge [ source 0 target 1 ]
  edge [ source 1 target 2 ]
]
";

/// One row, and three columns without a piece.
pub const CHAIN_MEASURED: &[u8] = b"vertices 3
pieces 2
rows 1
columns 3
bars 1
pairs 0
separated 0
length 300000
";

/// The file examples/circuit.gml.
pub const CIRCUIT: &[u8] = b"Creator \"hand\"
# A voltage divider: source, two resistors, ground, and a tap between the resistors.
graph [
  label \"divider\"
  directed 0
  node [ id 1 label \"V+\" graphics [ x 40.0 y 300.0 w 24.0 h 24.0 type \"ellipse\" ] ]
  node [ id 2 label \"R1 10k\" graphics [ x 40.0 y 220.0 w 16.0 h 48.0 type \"rectangle\" ] ]
  node [ id 3 label \"tap\" graphics [ x 40.0 y 150.0 w 6.0 h 6.0 type \"ellipse\" ] ]
  node [ id 4 label \"R2 4k7\" graphics [ x 40.0 y 80.0 w 16.0 h 48.0 type \"rectangle\" ] ]
  node [ id 5 label \"GND\" graphics [ x 40.0 y 10.0 w 24.0 h 8.0 type \"rectangle\" ] ]
  node [ id 6 label \"out\" graphics [ x 160.0 y 150.0 w 24.0 h 24.0 type \"ellipse\" ] ]
  edge [ source 1 target 2 ]
  edge [ source 2 target 3 ]
  edge [ source 3 target 4 ]
  edge [ source 4 target 5 ]
  edge [ source 3 target 6 ]
]
";

/// The column from V+ to GND and the row of the tap share the tap. The length is 290 down and 120
/// across.
pub const CIRCUIT_MEASURED: &[u8] = b"vertices 6
pieces 5
rows 5
columns 2
bars 2
pairs 0
separated 0
length 410000
";

/// The file examples/database.gml.
pub const DATABASE: &[u8] = b"Creator \"hand\"
# Tables of a small shop, and their foreign keys.
graph [
  label \"shop\"
  node [ id 10 label \"customer\" graphics [ x 0 y 0 w 90 h 110 ] ]
  node [ id 20 label \"order\" graphics [ x 240.5 y 0 w 90 h 130 ] ]
  node [ id 30 label \"order_line\" graphics [ x 240.5 y -260 w 90 h 90 ] ]
  node [ id 40 label \"product\" graphics [ x 520 y -260 w 90 h 110 ] ]
  node [ id 50 label \"category\" graphics [ x 520 y 0 w 90 h 50 ] ]
  edge [ source 20 target 10 label \"customer_id\" ]
  edge [ source 30 target 20 label \"order_id\" ]
  edge [ source 30 target 40 label \"product_id\" ]
  edge [ source 40 target 50 label \"category_id\" ]
]
";

/// Rows customer order, order_line product and category; columns customer, order order_line and
/// product category. Three pairs of the four segments share order, order_line or product. The two
/// rows are apart by the column that joins them, the two columns by the row that joins them. The
/// first row ends in the first of these columns, and so is apart from the second. The length is
/// 240.5 + 260 + 279.5 + 260.
pub const DATABASE_MEASURED: &[u8] = b"vertices 5
pieces 4
rows 3
columns 3
bars 4
pairs 3
separated 3
length 1040000
";

/// The file examples/classes.gml.
pub const CLASSES: &[u8] = b"Creator \"hand\"
# A class diagram: an interface, two classes that implement it, and a client.
graph [
  directed 1
  node [ id 1 label \"Shape\" graphics [ x 300 y 400 w 120 h 60 fill \"#FFFFCC\" ] ]
  node [ id 2 label \"Circle\" graphics [ x 150 y 200 w 120 h 60 ] ]
  node [ id 3 label \"Polygon\" graphics [ x 450 y 200 w 120 h 60 ] ]
  node [ id 4 label \"Canvas\" graphics [ x 700 y 400 w 120 h 60 ] ]
  edge [ source 2 target 1 label \"implements\"
    graphics [ targetArrow \"white_delta\" Line [ point [ x 150 y 200 ] \
      point [ x 150 y 300 ] point [ x 300 y 300 ] point [ x 300 y 400 ] ] ] ]
  edge [ source 3 target 1 label \"implements\"
    graphics [ targetArrow \"white_delta\" Line [ point [ x 450 y 200 ] \
      point [ x 450 y 350 ] point [ x 380 y 350 ] point [ x 380 y 400 ] \
      point [ x 300 y 400 ] ] ] ]
  edge [ source 4 target 3 label \"draws\"
    graphics [ Line [ point [ x 700 y 400 ] point [ x 700 y 200 ] point [ x 450 y 200 ] ] ] ]
]
";

/// Rows Shape and the bend east of it, Circle, Polygon and the bend below Canvas, Canvas, and two
/// of two bends; columns Circle, Shape, Polygon and Canvas, each with a bend, and one of two bends.
/// Eight of the 36 pairs of segments share a vertex. The horizontal pieces put the columns into one
/// order, which keeps all but three of the pairs apart, and the rows of these are in one order. The
/// length is 350 + 350 + 450.
pub const CLASSES_MEASURED: &[u8] = b"vertices 10
pieces 9
rows 6
columns 5
bars 9
pairs 28
separated 28
length 1150000
";

pub const STAIR_MEASURED: &[u8] = b"vertices 1000
pieces 999
rows 500
columns 501
bars 999
pairs 497503
separated 497503
length 999000
";
