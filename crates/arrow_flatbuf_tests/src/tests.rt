mod flatbuf;
