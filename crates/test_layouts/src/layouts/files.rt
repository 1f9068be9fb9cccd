//! A schema file, and the outline of its layout.

/// A schema file, and the outline of its layout.
#[derive(Clone, Copy)]
pub struct Row {
    pub file: &'static str,
    pub outline: &'static str,
}

/// A message with a constant, an array, a stated offset, groups and data, some of them of later versions; and a message
/// of one number, whose id is the smaller one.
pub const ORDER: Row = Row {
    file: r#"{"messageSchema":{"package":"demo","id":77,"version":2,"content":[{"types":{"content":[
    {"composite":{"name":"messageHeader","content":[
        {"type":{"name":"blockLength","primitiveType":"uint16"}},
        {"type":{"name":"templateId","primitiveType":"uint16"}},
        {"type":{"name":"schemaId","primitiveType":"uint16"}},
        {"type":{"name":"version","primitiveType":"uint16"}}]}},
    {"composite":{"name":"groupSizeEncoding","content":[
        {"type":{"name":"blockLength","primitiveType":"uint16"}},
        {"type":{"name":"numInGroup","primitiveType":"uint16"}}]}},
    {"composite":{"name":"varData16","content":[
        {"type":{"name":"length","primitiveType":"uint16"}},
        {"type":{"name":"varData","primitiveType":"uint8","length":0}}]}},
    {"composite":{"name":"Price","content":[
        {"type":{"name":"mantissa","primitiveType":"int32"}},
        {"type":{"name":"exponent","primitiveType":"int8"}}]}},
    {"type":{"name":"Three","primitiveType":"uint16","length":3}},
    {"type":{"name":"Four","primitiveType":"uint8","presence":"constant","text":4}}]}},
    {"message":{"name":"Order","id":20,"content":[
        {"field":{"name":"side","id":1,"type":"uint8"}},
        {"field":{"name":"kind","id":2,"type":"Four"}},
        {"field":{"name":"price","id":3,"type":"Price"}},
        {"field":{"name":"sizes","id":4,"type":"Three"}},
        {"field":{"name":"late","id":5,"type":"uint16","sinceVersion":2,"offset":16}},
        {"group":{"name":"legs","id":102,"content":[
            {"field":{"name":"ratio","id":6,"type":"uint8"}},
            {"group":{"name":"subs","id":103,"content":[
                {"field":{"name":"price","id":7,"type":"Price"}}]}},
            {"data":{"name":"note","id":8,"type":"varData16"}}]}},
        {"group":{"name":"fees","id":104,"sinceVersion":1,"content":[
            {"field":{"name":"amount","id":9,"type":"uint32"}}]}},
        {"data":{"name":"memo","id":10,"type":"varData16","sinceVersion":2}}]}},
    {"message":{"name":"Ping","id":10,"content":[{"field":{"name":"n","id":11,"type":"uint8"}}]}}]}}"#,
    outline: r#"schema 77 version 2 Little header 8
message 0 id 20 level 0
message 1 id 10 level 4
level 0 Order since 0 block 18 floors 12 12 18 least 16 20 28
  field side since 0 at Some(0)
  field kind since 0 at None
  field price since 0 at Some(1)
  field sizes since 0 at Some(6)
  field late since 2 at Some(16)
  group 0 is level 1 since 0 with 2 members
  group 1 is level 3 since 1 with 2 members
  data 0 is 0
level 1 legs since 0 block 1 floors 1 1 1 least 7 7 7
  field ratio since 0 at Some(0)
  group 0 is level 2 since 0 with 2 members
  data 0 is 1
level 2 subs since 0 block 5 floors 5 5 5 least 5 5 5
  field price since 0 at Some(0)
level 3 fees since 1 block 4 floors 0 4 4 least 0 4 4
  field amount since 1 at Some(0)
level 4 Ping since 0 block 1 floors 1 1 1 least 1 1 1
  field n since 0 at Some(0)
data 0 memo since 2 length U16
data 1 note since 0 length U16
"#,
};
