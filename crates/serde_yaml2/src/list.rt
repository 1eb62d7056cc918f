//! Vectors and maps of std's and `indexmap`'s.

ghost use Rattle.serde_yaml2.specs.Values.{list_of, map_of};

use crate::error::Errors;
use crate::serializer::YamlSerializer;
use crate::write::WriteYaml;
use indexmap::IndexMap;
use warg_values::Text;

impl<T: WriteYaml> WriteYaml for Vec<T> {
    ghost written = { λ v. list_of T.written v.items };

    fn write_yaml(&self, ser: &mut YamlSerializer) -> Result<(), Errors> {
        let mut list = ser.seq(self.len())?;
        for item in self {
            list.element(item)?;
        }
        list.end()
    }
}

impl<V: WriteYaml> WriteYaml for IndexMap<Text, V> {
    ghost written = { λ m. map_of V.written m.entries };

    fn write_yaml(&self, ser: &mut YamlSerializer) -> Result<(), Errors> {
        let mut map = ser.map(self.len())?;
        for index in 0..self.len() {
            if let Some((name, item)) = self.get_index(index) {
                map.key(name.as_str())?;
                map.value(item)?;
            }
        }
        map.end()
    }
}
